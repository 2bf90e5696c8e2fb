// A failure mode under a rule: its resistances are scaled, and all else is that of the mode below.
ghost use Rattle.failure.specs.Scalings.{under};
ghost use Rattle.failure.specs.Scaled.{under_lawful, allowed_most, under_alike};

use crate::mode::{FailureMode, bounded_resistance};
use crate::places::{Place, Places};
use crate::rule::Rule;
use bolts::bolt::Direction;
use loadcase::closed::ClosedCase;

#[derive(Drop)]
pub struct Reduced<M, R> {
    pub(crate) below: M,
    pub(crate) rule: R,
}

impl<M: FailureMode, R: Rule> FailureMode for Reduced<M, R> {
    ghost meaning = { λ s c. under (R.scaling s.rule) c (M.FailureMode.meaning s.below c) };

    ghost lawful = { λ s c valid i here.
        under_lawful _ (R.scaling s.rule) c (M.FailureMode.meaning s.below c) i (R.ranged s.rule) (M.FailureMode.lawful s.below c valid i here) };

    ghost few = { λ s c valid. M.FailureMode.few s.below c valid };

    ghost allows = { λ s c. allowed_most (R.scaling s.rule) _ (M.FailureMode.allows s.below c) };

    ghost fixed = { λ s c d.
        under_alike (R.scaling s.rule) c d (M.FailureMode.meaning s.below c) (M.FailureMode.meaning s.below d) (M.FailureMode.fixed s.below c d) };

    fn allowance(&self) -> u32 {
        self.rule.raise(self.below.allowance())
    }

    fn direction(&self) -> Direction {
        self.below.direction()
    }

    fn places(&self, case: &ClosedCase) -> Places {
        self.below.places(case)
    }

    fn effect(&self, case: &ClosedCase, place: usize) -> Option<u64> {
        self.below.effect(case, place)
    }

    fn resistance(&self, case: &ClosedCase, place: usize) -> Option<u64> {
        let below = bounded_resistance(&self.below, case, place)?;
        let place = Place {
            case,
            kind: self.places(case).kind,
            index: place,
        };
        Some(self.rule.scale(below, place))
    }
}
