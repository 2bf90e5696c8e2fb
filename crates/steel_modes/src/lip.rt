// The lips of the channel at a bolt.
ghost use Rattle.std.specs.Prelude.{◌≡◌, true, ◌&&◌};
ghost use Rattle.steel_modes.specs.Ranges.{Made, value_well, spacing_well};
ghost use Rattle.steel_modes.specs.Lips.{lip_meaning};
ghost use Rattle.std.proofs.Common.{rules};

use crate::arithmetic::{bolt_load, is_value_well};
use crate::design::PartialFactor;
use crate::lip::spacing::{is_spacing_well, nearest_of};
use bolts::bolt::Direction;
use failure::mode::FailureMode;
use failure::places::Places;
use loadcase::closed::ClosedCase;

mod spacing;

// The lips in a direction: the characteristic resistance in N, its partial factor, and the spacing of bolts in tenths
// below which two share a resistance.
#[derive(Clone, Copy)]
pub struct Lip {
    direction: Direction,
    value: u32,
    factor: PartialFactor,
    spacing: u32,
    ghost ranged: { value_well value ≡ true },
    ghost spaced: { spacing_well spacing ≡ true },
}

impl Lip {
    // The mode; none where the value or the spacing is out of range.
    pub fn new(
        direction: Direction,
        value: u32,
        factor: PartialFactor,
        spacing: u32,
    ) -> Option<Self>
        ensures { Made (value_well value && spacing_well spacing) (λ m. (m.direction ≡ direction) × (m.value ≡ value) × (m.factor ≡ factor) × (m.spacing ≡ spacing)) result }
    {
        if is_value_well(value) && is_spacing_well(spacing) {
            Some(Lip {
                direction,
                value,
                factor,
                spacing,
            })
        } else {
            None
        }
    }
}

impl FailureMode for Lip {
    ghost use Rattle.steel_modes.specs.Laws.{lip_lawful};

    ghost meaning = { λ m c. lip_meaning m.direction m.value m.factor m.spacing c };

    ghost lawful = { λ m. lip_lawful m.direction m.value m.factor m.spacing m.ranged };

    ghost few = { Prim.search rules };

    ghost allows = { Prim.search rules };

    ghost fixed = { Prim.search rules };

    fn allowance(&self) -> u32 {
        0
    }

    fn direction(&self) -> Direction {
        self.direction
    }

    fn places(&self, case: &ClosedCase) -> Places {
        Places::on_bolts(case)
    }

    fn effect(&self, case: &ClosedCase, place: usize) -> Option<u64> {
        bolt_load(case.bolts(), self.direction, place)
    }

    fn resistance(&self, case: &ClosedCase, place: usize) -> Option<u64> {
        if place >= case.bolts().len() {
            return None;
        }
        let nearest = nearest_of(case, place);
        Some(self.resistance_by(nearest))
    }
}
