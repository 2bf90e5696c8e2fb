// The reduction near the corners of the concrete: a root reduction whose A is the distance to the nearer corner.
ghost use Rattle.std.specs.Prelude.{◌≡◌, ◌<◌, ◌≤◌, true, false, ◌&&◌, MatchResult};
ghost use Rattle.bolts.specs.declared.refusal.Refusal.TheVariants.{Reduction};
ghost use Rattle.failure.specs.Reductions.{actual_fits, in_range};
ghost use Rattle.failure.specs.Corners.{corner_distance};
ghost use Rattle.failure.specs.Scalings.{ByRoot};
ghost use Rattle.std.proofs.Common.{arith};
ghost use Rattle.fractions.specs.Fractions.{over};

use crate::places::Place;
use crate::reduced::Reduced;
use crate::resistance::Resistance;
use crate::rule::Rule;
use crate::scaling::{Distances, actual_fits, characteristic_fits, raise};
use bolts::refusal::Refusal;

mod distance;

// The rule. The corners lie `first` before the first anchor and `last` after the last one; the characteristic distance
// is `b`. All are in µm.
#[derive(Clone, Copy)]
pub struct Corner {
    first: u64,
    last: u64,
    b: u64,
    ghost least_first: { 25000 ≤ first },
    ghost most_first: { first ≤ 10000000 },
    ghost least_last: { 25000 ≤ last },
    ghost most_last: { last ≤ 10000000 },
    ghost small: { b ≤ 2500000 },
    ghost proper: { 0 < b },
}

// A mode under the reduction.
pub type CornerReduction<M> = Reduced<M, Corner>;

impl<M: Drop> CornerReduction<M> {
    // The reduction of a mode; refused where a distance is out of range.
    pub fn new(below: M, first: u64, last: u64, b: u64) -> Result<Self, Refusal>
        ensures { MatchResult result (λ s. (actual_fits first && in_range last b ≡ true) × (s.below ≡ below) × (s.rule.first ≡ first) × (s.rule.last ≡ last) × (s.rule.b ≡ b)) (λ e. (actual_fits first && in_range last b ≡ false) × (e ≡ Reduction)) }
    {
        if actual_fits(first) && actual_fits(last) && characteristic_fits(b) {
            let rule = Corner { first, last, b };
            Ok(Reduced { below, rule })
        } else {
            Err(Refusal::Reduction)
        }
    }
}

impl Rule for Corner {
    ghost scaling = { λ r. ByRoot (λ c kind i. over (corner_distance c kind r.first r.last i) r.b r.proper) };

    ghost ranged = { λ r c kind i. (omega (arith, r.least_first, r.least_last), r.small) };

    fn raise(&self, allowance: u32) -> u32 {
        raise(allowance)
    }

    fn scale(&self, below: Resistance, place: Place<'_>) -> u64 {
        let a = self.distance(place);
        Distances { a, b: self.b }.by_root(below)
    }
}
