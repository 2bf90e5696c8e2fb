// The steel of an anchor.
ghost use Rattle.std.specs.Prelude.{◌≡◌, true};
ghost use Rattle.steel_modes.specs.Ranges.{Made, value_or_none};
ghost use Rattle.steel_modes.specs.Anchored.{anchor_steel_meaning};
ghost use Rattle.std.proofs.Common.{rules};

use crate::arithmetic::is_value_well;
use crate::design::{Characteristic, PartialFactor};
use bolts::bolt::Direction;
use failure::mode::FailureMode;
use failure::places::{PlaceKind, Places};
use loadcase::closed::ClosedCase;

// The steel of an anchor in a direction: the characteristic resistance in N, 0 where the mode does not apply, and its
// partial factor.
#[derive(Clone, Copy)]
pub struct AnchorSteel {
    direction: Direction,
    // 0 where the mode has no places: the project's form
    value: u32,
    factor: PartialFactor,
    ghost ranged: { value_or_none value ≡ true },
}

impl AnchorSteel {
    // The mode; none where the value is neither 0 nor in range.
    pub fn new(direction: Direction, value: u32, factor: PartialFactor) -> Option<Self>
        ensures { Made (value_or_none value) (λ m. (m.direction ≡ direction) × (m.value ≡ value) × (m.factor ≡ factor)) result }
    {
        if value == 0 || is_value_well(value) {
            Some(AnchorSteel {
                direction,
                value,
                factor,
            })
        } else {
            None
        }
    }
}

impl FailureMode for AnchorSteel {
    ghost use Rattle.steel_modes.specs.Laws.{anchor_steel_lawful};

    ghost meaning = { λ m c. anchor_steel_meaning m.direction m.value m.factor c };

    ghost lawful = { λ m. anchor_steel_lawful m.direction m.value m.factor m.ranged };

    ghost few = { Prim.search rules };

    ghost allows = { Prim.search rules };

    ghost fixed = { Prim.search rules };

    fn allowance(&self) -> u32 {
        0
    }

    fn direction(&self) -> Direction {
        self.direction
    }

    fn places(&self, case: &ClosedCase) -> Places {
        if self.value == 0 {
            Places {
                kind: PlaceKind::Nothing,
                count: 0,
            }
        } else {
            Places::on_anchors(case)
        }
    }

    fn effect(&self, case: &ClosedCase, place: usize) -> Option<u64> {
        if self.value == 0 {
            None
        } else {
            case.force(self.direction, place)
        }
    }

    fn resistance(&self, case: &ClosedCase, place: usize) -> Option<u64> {
        let design = Characteristic::from_newtons(self.value).design(self.factor);
        self.places(case).at_each(design.value, place)
    }
}
