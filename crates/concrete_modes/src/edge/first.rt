// The concrete edge by the rules of edition 1.
ghost use Rattle.std.specs.Prelude.{◌≡◌, ◌<◌, true};
ghost use Rattle.steel_modes.specs.Ranges.{Made};
ghost use Rattle.concrete.specs.Edge.{edge_first, edge_square};
ghost use Rattle.concrete_modes.specs.Edges.{well_of, edge_spacing, first_meaning};
ghost use Rattle.std.proofs.Common.{rules};

use crate::edge::{ALLOWANCE, EdgeBasis};
use bolts::bolt::Direction;
use failure::mode::FailureMode;
use failure::places::Places;
use groups::effect::group_effect;
use groups::spacing::CharacteristicSpacing;
use loadcase::closed::ClosedCase;
use roots::whole::square_root;
use steel_modes::design::{Characteristic, PartialFactor};

// mN² in the unit of the square, which has k and the edge distance in tenths.
const UNIT: u64 = 10;

// The edge in shear, with the partial factor of concrete.
// the project's decision: a failure mode for each edition
#[derive(Clone, Copy)]
pub struct FirstEdge {
    basis: EdgeBasis,
    factor: PartialFactor,
    spacing: CharacteristicSpacing,
    ghost ranged: { well_of basis ≡ true },
    ghost spaced: { spacing.um ≡ edge_spacing basis.distance basis.width },
}

impl FirstEdge {
    // The mode; none where a number is out of range.
    pub fn new(basis: EdgeBasis, factor: PartialFactor) -> Option<Self>
        ensures { Made (well_of basis) (λ m. (m.basis ≡ basis) × (m.factor ≡ factor)) result }
    {
        let spacing = basis.characteristic_spacing()?;
        Some(FirstEdge {
            basis,
            factor,
            spacing,
        })
    }

    // The value by edition 1, in mN.
    fn value(&self) -> u64
        ensures value { result ≡ edge_first self.now.basis.k self.now.basis.strength self.now.basis.distance }
        ensures small { result < 4294967296 }
    {
        square_root(self.square())
    }

    // The square of the value.
    fn square(&self) -> u64
        ensures { result ≡ edge_square self.now.basis.k self.now.basis.strength self.now.basis.distance }
    {
        let k = u64::from(self.basis.k);
        let c = u64::from(self.basis.distance);
        k * k * u64::from(self.basis.strength) * (c * c * c) * UNIT
    }
}

impl FailureMode for FirstEdge {
    ghost use Rattle.concrete_modes.specs.Laws.{first_keeps};

    ghost meaning = { λ m c. first_meaning m.spacing m.basis m.factor c };

    ghost lawful = { λ m. first_keeps m.basis m.ranged m.spacing m.factor };

    ghost few = { Prim.search rules };

    ghost allows = { Prim.search rules };

    ghost fixed = { Prim.search rules };

    fn allowance(&self) -> u32 {
        ALLOWANCE
    }

    fn direction(&self) -> Direction {
        Direction::Shear
    }

    fn places(&self, case: &ClosedCase) -> Places {
        Places::on_anchors(case)
    }

    fn effect(&self, case: &ClosedCase, place: usize) -> Option<u64> {
        group_effect(case, Direction::Shear, self.spacing, place)
    }

    fn resistance(&self, case: &ClosedCase, place: usize) -> Option<u64> {
        if place >= self.places(case).count {
            return None; // before any root is taken
        }
        let hundredths = self.value() * u64::from(self.basis.p);
        let design = Characteristic { hundredths }.design(self.factor);
        Some(design.value)
    }
}
