// The concrete edge by the rules of edition 2.
ghost use Rattle.std.specs.Prelude.{◌≡◌, ◌≤◌, true};
ghost use Rattle.steel_modes.specs.Ranges.{Made};
ghost use Rattle.concrete.specs.Edge.{edge_second, strength_root, distance_root};
ghost use Rattle.concrete_modes.specs.Edges.{well_of, edge_spacing, second_meaning};
ghost use Rattle.std.proofs.Common.{rules};

use crate::edge::{ALLOWANCE, EdgeBasis};
use bolts::bolt::Direction;
use failure::mode::FailureMode;
use failure::places::Places;
use groups::effect::group_effect;
use groups::spacing::CharacteristicSpacing;
use loadcase::closed::ClosedCase;
use roots::whole::{cube_root, square_root};
use steel_modes::design::{Characteristic, PartialFactor};

// What the strength is multiplied by under its square root, for millionths, and the edge distance in tenths under its
// cube root, for hundred-thousandths of that in mm.
const STRENGTH_SCALE: u64 = 1_000_000_000_000;

const DISTANCE_SCALE: u64 = 100_000_000_000_000;

// What the product of both roots is divided by, for mN.
const BOTH_SCALES: u64 = 10_000_000_000;

// The edge in shear, with the partial factor of concrete.
// the project's decision: a failure mode for each edition
#[derive(Clone, Copy)]
pub struct SecondEdge {
    basis: EdgeBasis,
    factor: PartialFactor,
    spacing: CharacteristicSpacing,
    ghost ranged: { well_of basis ≡ true },
    ghost spaced: { spacing.um ≡ edge_spacing basis.distance basis.width },
}

impl SecondEdge {
    // The mode; none where a number is out of range.
    pub fn new(basis: EdgeBasis, factor: PartialFactor) -> Option<Self>
        ensures { Made (well_of basis) (λ m. (m.basis ≡ basis) × (m.factor ≡ factor)) result }
    {
        let spacing = basis.characteristic_spacing()?;
        Some(SecondEdge {
            basis,
            factor,
            spacing,
        })
    }

    // The value by edition 2, in mN.
    fn value(&self) -> u64
        ensures value { result ≡ edge_second self.now.basis.k self.now.basis.strength self.now.basis.distance }
        ensures small { result ≤ 400000000 }
    {
        let g = strength_root(self.basis.strength);
        let t = distance_root(self.basis.distance);
        u64::from(self.basis.k) * g * u64::from(self.basis.distance) * t / BOTH_SCALES
    }
}

// The square root of the strength, in millionths.
fn strength_root(strength: u32) -> u64
    requires { strength ≤ 75 }
    ensures value { result ≡ strength_root strength }
    ensures small { result ≤ 9000000 }
{
    square_root(u64::from(strength) * STRENGTH_SCALE)
}

// The cube root of the edge distance in mm, in hundred-thousandths.
fn distance_root(distance: u32) -> u64
    requires { distance ≤ 5000 }
    ensures value { result ≡ distance_root distance }
    ensures small { result ≤ 800000 }
{
    cube_root(u64::from(distance) * DISTANCE_SCALE)
}

impl FailureMode for SecondEdge {
    ghost use Rattle.concrete_modes.specs.Laws.{second_keeps};

    ghost meaning = { λ m c. second_meaning m.spacing m.basis m.factor c };

    ghost lawful = { λ m. second_keeps m.basis m.ranged m.spacing m.factor };

    ghost few = { Prim.search rules };

    ghost allows = { Prim.search rules };

    ghost fixed = { Prim.search rules };

    fn allowance(&self) -> u32 {
        ALLOWANCE
    }

    fn direction(&self) -> Direction {
        Direction::Shear
    }

    fn places(&self, case: &ClosedCase) -> Places {
        Places::on_anchors(case)
    }

    fn effect(&self, case: &ClosedCase, place: usize) -> Option<u64> {
        group_effect(case, Direction::Shear, self.spacing, place)
    }

    fn resistance(&self, case: &ClosedCase, place: usize) -> Option<u64> {
        if place >= self.places(case).count {
            return None; // before any root is taken
        }
        let hundredths = self.value() * u64::from(self.basis.p);
        let design = Characteristic { hundredths }.design(self.factor);
        Some(design.value)
    }
}
