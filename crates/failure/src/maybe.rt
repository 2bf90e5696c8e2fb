// A failure mode with or without a straight reduction, as one type; and a rule that may be there, as a rule.
ghost use Rattle.std.specs.Prelude.{◌≡◌, Some, None, MatchResult};
ghost use Rattle.failure.specs.Scalings.{maybe_scaling};

use crate::places::Place;
use crate::reduced::Reduced;
use crate::resistance::Resistance;
use crate::rule::Rule;
use crate::straight::{Straight, StraightReduction};

// A mode under a rule that may be there; where it is not, the mode stays as it is.
pub type MaybeReduced<M> = Reduced<M, Option<Straight>>;

impl<M> MaybeReduced<M> {
    // The mode with this rule or none.
    pub fn new(below: M, rule: Option<Straight>) -> Self
        ensures { (result.below ≡ below) × (result.rule ≡ rule) }
    {
        Reduced { below, rule }
    }

    // The reduction, or the mode alone where there is no rule.
    pub fn into_reduction(self) -> Result<StraightReduction<M>, M>
        ensures { MatchResult result (λ s. (s.below ≡ self.below) × (self.rule ≡ Some s.rule)) (λ m. (m ≡ self.below) × (self.rule ≡ None)) }
    {
        let below = self.below;
        match self.rule {
            Some(rule) => Ok(StraightReduction { below, rule }),
            None => Err(below),
        }
    }
}

// The mode with the rule of its reduction.
impl<M> From<StraightReduction<M>> for MaybeReduced<M> {
    ghost from_gives = { λ s r. (r.below ≡ s.below) × (r.rule ≡ Some s.rule) };

    fn from(reduction: StraightReduction<M>) -> MaybeReduced<M> {
        MaybeReduced::new(reduction.below, Some(reduction.rule))
    }
}

impl<R: Rule> Rule for Option<R> {
    ghost scaling = { maybe_scaling R.scaling };

    ghost ranged = { elim [ Some r ↦ R.ranged r | None ↦ tt ] };

    fn raise(&self, allowance: u32) -> u32 {
        match self {
            Some(rule) => rule.raise(allowance),
            None => allowance,
        }
    }

    fn scale(&self, below: Resistance, place: Place<'_>) -> u64 {
        match self {
            Some(rule) => rule.scale(below, place),
            None => below.mn,
        }
    }
}
