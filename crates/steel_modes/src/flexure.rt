// The bending of the channel between two neighbouring anchors.
ghost use Rattle.std.specs.Prelude.{◌≡◌, true};
ghost use Rattle.steel_modes.specs.Ranges.{Made, bending_well};
ghost use Rattle.steel_modes.specs.Flexed.{flexure_meaning};
ghost use Rattle.std.proofs.Common.{rules};

use crate::design::{Characteristic, PartialFactor};
use crate::flexure::moment::{is_bending_well, moment};
use bolts::bolt::Direction;
use failure::mode::FailureMode;
use failure::places::Places;
use loadcase::closed::ClosedCase;

mod moment;

// The bending in tension: the characteristic resistance in newton-metres, and its partial factor.
#[derive(Clone, Copy)]
pub struct Flexure {
    value: u32,
    factor: PartialFactor,
    ghost ranged: { bending_well value ≡ true },
}

impl Flexure {
    // The mode; none where the value is out of range.
    pub fn new(value: u32, factor: PartialFactor) -> Option<Self>
        ensures { Made (bending_well value) (λ m. (m.value ≡ value) × (m.factor ≡ factor)) result }
    {
        if is_bending_well(value) {
            Some(Flexure { value, factor })
        } else {
            None
        }
    }
}

impl FailureMode for Flexure {
    ghost use Rattle.steel_modes.specs.Laws.{flexure_keeps};

    ghost meaning = { λ m c. flexure_meaning m.value m.factor c };

    ghost lawful = { λ m. flexure_keeps m.value m.factor m.ranged };

    ghost few = { Prim.search rules };

    ghost allows = { Prim.search rules };

    ghost fixed = { Prim.search rules };

    fn allowance(&self) -> u32 {
        0
    }

    fn direction(&self) -> Direction {
        Direction::Tension
    }

    fn places(&self, case: &ClosedCase) -> Places {
        Places::on_bolts(case)
    }

    fn effect(&self, case: &ClosedCase, place: usize) -> Option<u64> {
        moment(case, place)
    }

    fn resistance(&self, case: &ClosedCase, place: usize) -> Option<u64> {
        let design = Characteristic::from_newtons(self.value).design(self.factor);
        self.places(case).at_each(design.value, place)
    }
}
