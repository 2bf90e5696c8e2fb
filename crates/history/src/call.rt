// The calls on a load case, and what they are answered.
use bolts::bolt::Bolt;
use bolts::refusal::Refusal;
use verdict::answer::{Shown, Verdict};

// A call with its arguments; lines and places count from 1.
#[derive(Clone, Copy, Debug, PartialEq, Eq)]
pub enum Call {
    Place(Bolt),
    Lift(u32),
    Close,
    Reopen,
    Show { line: usize, place: usize },
    Rate,
}

// What a call is answered. `OutOfTurn` is for a call that would not build on the case as it stands.
// a sum of five, no Result: a refusal is an answer like the others
#[derive(Clone, Copy, Debug, PartialEq, Eq)]
pub enum Answer {
    Done,
    Refused(Refusal),
    Shown(Shown),
    Rated(Verdict),
    OutOfTurn,
}
