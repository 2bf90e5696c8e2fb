// The root reduction: the resistance times the square root of A over B, where A is less.
ghost use Rattle.std.specs.Prelude.{◌≡◌, true, false, MatchResult};
ghost use Rattle.bolts.specs.declared.refusal.Refusal.TheVariants.{Reduction};
ghost use Rattle.failure.specs.Distances.{ratio_of};
ghost use Rattle.failure.specs.Reductions.{in_range};
ghost use Rattle.failure.specs.Scalings.{ByRoot};

use crate::places::Place;
use crate::reduced::Reduced;
use crate::resistance::Resistance;
use crate::rule::Rule;
use crate::scaling::{Distances, raise};
use bolts::refusal::Refusal;

// The rule, with the actual distance A and the characteristic distance B in µm.
// a rule of its own: only what it does to a resistance differs from the straight one
#[derive(Clone, Copy)]
pub struct Root {
    distances: Distances,
}

// A mode under the reduction.
pub type RootReduction<M> = Reduced<M, Root>;

impl<M: Drop> RootReduction<M> {
    // The reduction of a mode; refused where a distance is out of range.
    pub fn new(below: M, a: u64, b: u64) -> Result<Self, Refusal>
        ensures { MatchResult result (λ s. (in_range a b ≡ true) × (s.below ≡ below) × (s.rule.distances.a ≡ a) × (s.rule.distances.b ≡ b)) (λ e. (in_range a b ≡ false) × (e ≡ Reduction)) }
    {
        let distances = Distances::new(a, b)?;
        let rule = Root { distances };
        Ok(Reduced { below, rule })
    }
}

impl Rule for Root {
    ghost scaling = { λ r. ByRoot (λ _ _ _. ratio_of r.distances) };

    ghost ranged = { λ r _ _ _. (r.distances.least, r.distances.small) };

    fn raise(&self, allowance: u32) -> u32 {
        raise(allowance)
    }

    fn scale(&self, below: Resistance, _place: Place<'_>) -> u64 {
        self.distances.by_root(below)
    }
}
