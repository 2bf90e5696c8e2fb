// The straight reduction: the resistance times A over B, where A is less.
ghost use Rattle.std.specs.Prelude.{◌≡◌, true, false, MatchResult};
ghost use Rattle.bolts.specs.declared.refusal.Refusal.TheVariants.{Reduction};
ghost use Rattle.failure.specs.Combined.{straight_scaling};
ghost use Rattle.failure.specs.Reductions.{in_range};

use crate::places::Place;
use crate::reduced::Reduced;
use crate::resistance::Resistance;
use crate::rule::Rule;
use crate::scaling::{Distances, raise};
use bolts::refusal::Refusal;

// The rule, with the actual distance A and the characteristic distance B in µm.
#[derive(Clone, Copy)]
pub struct Straight {
    distances: Distances,
}

impl Straight {
    // Refused where a distance is out of range.
    pub fn new(a: u64, b: u64) -> Result<Self, Refusal>
        ensures { MatchResult result (λ r. (in_range a b ≡ true) × (r.distances.a ≡ a) × (r.distances.b ≡ b)) (λ e. (in_range a b ≡ false) × (e ≡ Reduction)) }
    {
        let distances = Distances::new(a, b)?;
        Ok(Straight { distances })
    }
}

// A mode under the reduction.
pub type StraightReduction<M> = Reduced<M, Straight>;

impl<M: Drop> StraightReduction<M> {
    // The reduction of a mode; refused where a distance is out of range.
    pub fn new(below: M, a: u64, b: u64) -> Result<Self, Refusal>
        ensures { MatchResult result (λ s. (in_range a b ≡ true) × (s.below ≡ below) × (s.rule.distances.a ≡ a) × (s.rule.distances.b ≡ b)) (λ e. (in_range a b ≡ false) × (e ≡ Reduction)) }
    {
        let rule = Straight::new(a, b)?;
        Ok(Reduced { below, rule })
    }
}

impl Rule for Straight {
    ghost scaling = { straight_scaling };

    ghost ranged = { λ r. tt };

    fn raise(&self, allowance: u32) -> u32 {
        raise(allowance)
    }

    fn scale(&self, below: Resistance, _place: Place<'_>) -> u64 {
        self.distances.by_ratio(below)
    }
}
