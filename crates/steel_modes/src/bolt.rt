// The steel of a channel bolt.
ghost use Rattle.std.specs.Prelude.{◌≡◌, true};
ghost use Rattle.steel_modes.specs.Ranges.{Made, value_well};
ghost use Rattle.steel_modes.specs.Bolted.{bolt_steel_meaning};
ghost use Rattle.std.proofs.Common.{rules};

use crate::arithmetic::{bolt_load, is_value_well};
use crate::design::{Characteristic, PartialFactor};
use bolts::bolt::Direction;
use failure::mode::FailureMode;
use failure::places::Places;
use loadcase::closed::ClosedCase;

// The steel of a bolt in a direction: the characteristic resistance in N, and its partial factor.
#[derive(Clone, Copy)]
pub struct BoltSteel {
    direction: Direction,
    value: u32,
    factor: PartialFactor,
    ghost ranged: { value_well value ≡ true },
}

impl BoltSteel {
    // The mode; none where the value is out of range.
    pub fn new(direction: Direction, value: u32, factor: PartialFactor) -> Option<Self>
        ensures { Made (value_well value) (λ m. (m.direction ≡ direction) × (m.value ≡ value) × (m.factor ≡ factor)) result }
    {
        if is_value_well(value) {
            Some(BoltSteel {
                direction,
                value,
                factor,
            })
        } else {
            None
        }
    }
}

impl FailureMode for BoltSteel {
    ghost use Rattle.steel_modes.specs.Laws.{bolt_steel_lawful};

    ghost meaning = { λ m c. bolt_steel_meaning m.direction m.value m.factor c };

    ghost lawful = { λ m. bolt_steel_lawful m.direction m.value m.factor m.ranged };

    ghost few = { Prim.search rules };

    ghost allows = { Prim.search rules };

    ghost fixed = { Prim.search rules };

    fn allowance(&self) -> u32 {
        0
    }

    fn direction(&self) -> Direction {
        self.direction
    }

    fn places(&self, case: &ClosedCase) -> Places {
        Places::on_bolts(case)
    }

    fn effect(&self, case: &ClosedCase, place: usize) -> Option<u64> {
        bolt_load(case.bolts(), self.direction, place)
    }

    fn resistance(&self, case: &ClosedCase, place: usize) -> Option<u64> {
        let design = Characteristic::from_newtons(self.value).design(self.factor);
        self.places(case).at_each(design.value, place)
    }
}
