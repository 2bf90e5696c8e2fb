// What a failure mode is.
ghost use Rattle.std.specs.Prelude.{◌≡◌, ◌<◌, ◌≤◌, OnSome, option_map};
ghost use Rattle.forces.specs.Cases.{Case, Valid};
ghost use Rattle.loadcase.specs.Closed.{closed_case};
ghost use Rattle.failure.specs.Meanings.{Meaning, Lawful, Alike, effect_at, resistance_at};

use crate::places::Places;
use crate::resistance::Resistance;
use bolts::bolt::Direction;
use loadcase::closed::ClosedCase;

// Effects and resistances are in mN, for bending in thousandths of a newton-metre. Case and place are two parameters
// and no struct: the form that every mode implements.
pub trait FailureMode {
    ghost meaning: { Self → Case → Meaning };

    // How far a resistance may lie below the exact one, in millionths of it; 2,000 where nothing is promised.
    // one number: each reduction adds to it, and it stops at 2,000
    fn allowance(&self) -> u32
        ensures { (c : Case) → result ≡ (meaning self.now c).allowance };

    // The direction of the loads that the mode bears.
    fn direction(&self) -> Direction
        ensures { (c : Case) → result ≡ (meaning self.now c).direction };

    // Where the mode compares.
    fn places(&self, case: &ClosedCase) -> Places
        ensures { result ≡ (meaning self.now (closed_case case.now)).places };

    // The effect at a place; none past the last.
    fn effect(&self, case: &ClosedCase, place: usize) -> Option<u64>
        ensures { result ≡ effect_at (meaning self.now (closed_case case.now)) place };

    // The resistance at a place; none past the last.
    fn resistance(&self, case: &ClosedCase, place: usize) -> Option<u64>
        ensures { result ≡ resistance_at (meaning self.now (closed_case case.now)) place };

    ghost lawful: { (m : Self) (c : Case) → Valid c → Lawful c (meaning m c) };

    ghost few: { (m : Self) (c : Case) → Valid c → (meaning m c).places.count ≤ 16 };

    ghost allows: { (m : Self) (c : Case) → (meaning m c).allowance ≤ 2000 };

    ghost fixed: { (m : Self) (c d : Case) → Alike (meaning m c) (meaning m d) };
}

// The resistance of a mode at a place, with what its laws say: it is in range, and there are few places.
pub(crate) fn bounded_resistance<M: FailureMode>(
    mode: &M,
    case: &ClosedCase,
    place: usize,
) -> Option<Resistance>
    ensures value { option_map (λ r. r.mn) result ≡ resistance_at (M.FailureMode.meaning mode.now (closed_case case.now)) place }
    ensures few { OnSome result (place < 16) }
{
    let mn = mode.resistance(case, place)?;
    Some(Resistance { mn })
}
