// Why a call on a load case is refused.
ghost use Rattle.std.specs.Prelude.{◌≡◌};
ghost use Rattle.bolts.specs.Numbers.{number};

// The question that was answered no.
#[derive(Clone, Copy, Debug, PartialEq, Eq)]
pub enum Refusal {
    // The numbers that a case is opened with are out of range.
    Opening,
    // The position does not lie between the first anchor and the last.
    Position,
    // A load is above 200,000 N, or both are 0.
    Loads,
    // There are 16 bolts already.
    Full,
    // A bolt lies nearer than 300 tenths.
    Near,
    // No bolt lies exactly there.
    NoBolt,
    // There is no such line, or no such place on it.
    NoPlace,
    // The allowance of a failure mode is above 600 millionths.
    Allowance,
    // A distance that a reduction is made with is out of range.
    Reduction,
}

impl Refusal {
    // The number of the question.
    pub fn number(self) -> u8
        ensures { result ≡ number self }
    {
        match self {
            Refusal::Opening => 5,
            Refusal::Position => 7,
            Refusal::Loads => 8,
            Refusal::Full => 9,
            Refusal::Near => 10,
            Refusal::NoBolt => 11,
            Refusal::NoPlace => 12,
            Refusal::Allowance => 13,
            Refusal::Reduction => 14,
        }
    }
}
