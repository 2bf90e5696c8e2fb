// The pull-out of an anchor.
ghost use Rattle.std.specs.Prelude.{◌≡◌, ◌*◌, true, ◌&&◌};
ghost use Rattle.steel_modes.specs.Ranges.{Made, value_well, strength_well};
ghost use Rattle.steel_modes.specs.Anchored.{pull_out_meaning};
ghost use Rattle.std.proofs.Common.{rules};

use crate::arithmetic::is_value_well;
use crate::design::{Characteristic, PartialFactor};
use bolts::bolt::Direction;
use failure::mode::FailureMode;
use failure::places::Places;
use forces::units::mn;
use loadcase::closed::ClosedCase;

// The least and the greatest strength factor, in hundredths.
const LEAST_STRENGTH: u32 = 20;

const MOST_STRENGTH: u32 = 400;

// Whether a strength factor in hundredths is in range.
// a function for each range: each has its own definition
fn is_strength_well(strength: u32) -> bool
    ensures { result ≡ strength_well strength }
{
    (LEAST_STRENGTH..=MOST_STRENGTH).contains(&strength)
}

// The pull-out in tension: the characteristic resistance in N, the factor for the concrete's strength in hundredths,
// and the partial factor of concrete.
#[derive(Clone, Copy)]
pub struct PullOut {
    value: u32,
    strength: u32,
    factor: PartialFactor,
    ghost ranged: { value_well value ≡ true },
    ghost strong: { strength_well strength ≡ true },
}

impl PullOut {
    // The mode; none where the value or the strength factor is out of range.
    pub fn new(value: u32, strength: u32, factor: PartialFactor) -> Option<Self>
        ensures { Made (value_well value && strength_well strength) (λ m. (m.value ≡ value) × (m.strength ≡ strength) × (m.factor ≡ factor)) result }
    {
        if is_value_well(value) && is_strength_well(strength) {
            Some(PullOut {
                value,
                strength,
                factor,
            })
        } else {
            None
        }
    }

    // The value times the strength factor.
    fn characteristic(&self) -> Characteristic
        ensures { result.hundredths ≡ self.now.value * 1000 * self.now.strength }
    {
        Characteristic {
            hundredths: mn(self.value) * u64::from(self.strength),
        }
    }
}

impl FailureMode for PullOut {
    ghost use Rattle.steel_modes.specs.Laws.{pull_out_lawful};

    ghost meaning = { λ m c. pull_out_meaning m.value m.strength m.factor c };

    ghost lawful = { λ m. pull_out_lawful m.value m.strength m.factor m.ranged m.strong };

    ghost few = { Prim.search rules };

    ghost allows = { Prim.search rules };

    ghost fixed = { Prim.search rules };

    fn allowance(&self) -> u32 {
        0
    }

    fn direction(&self) -> Direction {
        Direction::Tension
    }

    fn places(&self, case: &ClosedCase) -> Places {
        Places::on_anchors(case)
    }

    fn effect(&self, case: &ClosedCase, place: usize) -> Option<u64> {
        case.force(Direction::Tension, place)
    }

    fn resistance(&self, case: &ClosedCase, place: usize) -> Option<u64> {
        let design = self.characteristic().design(self.factor);
        self.places(case).at_each(design.value, place)
    }
}
