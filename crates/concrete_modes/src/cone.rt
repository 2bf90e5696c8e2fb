// The concrete cone about an anchor in tension, and the pry-out in shear, which is the cone's resistance times a factor.
ghost use Rattle.std.specs.Prelude.{◌≡◌, ◌≤◌, true};
ghost use Rattle.steel_modes.specs.Ranges.{Made};
ghost use Rattle.concrete.specs.Cone.{cone_spacing, cone_edge};
ghost use Rattle.concrete_modes.specs.Cones.{cone_well, cone_meaning};
ghost use Rattle.std.proofs.Common.{rules};

use bolts::bolt::Direction;
use failure::mode::FailureMode;
use failure::places::Places;
use groups::effect::group_effect;
use groups::spacing::CharacteristicSpacing;
use loadcase::closed::ClosedCase;
use roots::division::{Divisor, div_up};
use steel_modes::design::PartialFactor;

mod basis;

const HALVES: u64 = 2;

// What the basic resistance is reckoned from: the factor k in tenths, the strength in N/mm², the embedment depth in
// tenths of a millimetre, and the multiple in tenths, 10 for the cone itself.
#[derive(Clone, Copy)]
pub struct ConeBasis {
    pub k: u32,
    pub strength: u32,
    pub depth: u32,
    pub multiple: u32,
}

// The cone in a direction, with the partial factor of concrete.
#[derive(Clone, Copy)]
pub struct Cone {
    direction: Direction,
    basis: ConeBasis,
    factor: PartialFactor,
    spacing: CharacteristicSpacing,
    ghost ranged: { cone_well basis.k basis.strength basis.depth basis.multiple ≡ true },
    ghost spaced: { spacing.um ≡ cone_spacing basis.depth },
}

impl Cone {
    // The mode; none where a number is out of range.
    pub fn new(direction: Direction, basis: ConeBasis, factor: PartialFactor) -> Option<Self>
        ensures { Made (cone_well basis.k basis.strength basis.depth basis.multiple) (λ m. (m.direction ≡ direction) × (m.basis ≡ basis) × (m.factor ≡ factor)) result }
    {
        let spacing = basis.characteristic_spacing()?;
        Some(Cone {
            direction,
            basis,
            factor,
            spacing,
        })
    }

    // The characteristic edge distance in µm: half of the characteristic spacing, up.
    pub fn characteristic_edge_distance(&self) -> u64
        ensures value { result ≡ cone_edge self.now.basis.depth }
        ensures large { 25000 ≤ result }
        ensures small { result ≤ 2500000 }
    {
        div_up(self.spacing.um, Divisor { number: HALVES })
    }
}

impl FailureMode for Cone {
    ghost use Rattle.concrete_modes.specs.Laws.{cone_keeps};

    ghost meaning = { λ m c. cone_meaning m.direction m.spacing m.basis m.factor c };

    ghost lawful = { λ m. cone_keeps m.basis m.ranged m.direction m.spacing m.factor };

    ghost few = { Prim.search rules };

    ghost allows = { Prim.search rules };

    ghost fixed = { Prim.search rules };

    fn allowance(&self) -> u32 {
        0
    }

    fn direction(&self) -> Direction {
        self.direction
    }

    fn places(&self, case: &ClosedCase) -> Places {
        Places::on_anchors(case)
    }

    fn effect(&self, case: &ClosedCase, place: usize) -> Option<u64> {
        group_effect(case, self.direction, self.spacing, place)
    }

    fn resistance(&self, case: &ClosedCase, place: usize) -> Option<u64> {
        if place >= self.places(case).count {
            return None; // before any root is taken
        }
        let design = self.basic_value().design(self.factor);
        Some(design.value)
    }
}
