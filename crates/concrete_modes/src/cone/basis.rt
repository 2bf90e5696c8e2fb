// The basic resistance of the cone, and its characteristic spacing.
ghost use Rattle.std.specs.Prelude.{◌≡◌, ◌*◌};
ghost use Rattle.steel_modes.specs.Ranges.{Made};
ghost use Rattle.concrete.specs.Cone.{cone_square, cone_value, cone_spacing};
ghost use Rattle.concrete_modes.specs.Cones.{cone_well};

use crate::cone::{Cone, ConeBasis};
use groups::spacing::CharacteristicSpacing;
use roots::division::{Divisor, div_up};
use roots::whole::square_root;
use steel_modes::design::Characteristic;

const LEAST_K: u32 = 30;

const MOST_K: u32 = 130;

const LEAST_STRENGTH: u32 = 12;

const MOST_STRENGTH: u32 = 75;

const LEAST_DEPTH: u32 = 400;

const MOST_DEPTH: u32 = 2_500;

const LEAST_MULTIPLE: u32 = 10;

const MOST_MULTIPLE: u32 = 20;

// The characteristic spacing is the depth times 50,400 less 13 times the depth, over 90, and at least 300 times it.
const WIDEST: u64 = 50_400;

const STEP: u64 = 13;

const PARTS: u64 = 90;

const LEAST_MULTIPLE_OF_DEPTH: u64 = 300;

// `square` is this many times the square of the basic value.
const SQUARES: u64 = 10;

// Hundredths of a mN in the unit of the basic value.
const UNIT: u64 = 100;

impl ConeBasis {
    // Whether all numbers are in range.
    fn is_well(self) -> bool
        ensures { result ≡ cone_well self.k self.strength self.depth self.multiple }
    {
        (LEAST_K..=MOST_K).contains(&self.k)
            && (LEAST_STRENGTH..=MOST_STRENGTH).contains(&self.strength)
            && (LEAST_DEPTH..=MOST_DEPTH).contains(&self.depth)
            && (LEAST_MULTIPLE..=MOST_MULTIPLE).contains(&self.multiple)
    }

    // The characteristic spacing; none where a number is out of range.
    pub(crate) fn characteristic_spacing(self) -> Option<CharacteristicSpacing>
        ensures { Made (cone_well self.k self.strength self.depth self.multiple) (λ s. s.um ≡ cone_spacing self.depth) result }
    {
        if !self.is_well() {
            return None;
        }
        let depth = u64::from(self.depth);
        let wide = div_up(depth * (WIDEST - STEP * depth), Divisor { number: PARTS });
        Some(CharacteristicSpacing {
            um: wide.max(LEAST_MULTIPLE_OF_DEPTH * depth),
        })
    }
}

impl Cone {
    // The basic resistance, as a characteristic value.
    pub(crate) fn basic_value(&self) -> Characteristic
        ensures { result.hundredths ≡ cone_value self.now.basis.k self.now.basis.strength self.now.basis.depth self.now.basis.multiple * 100 }
    {
        Characteristic {
            hundredths: square_root(self.square() / SQUARES) * UNIT,
        }
    }

    // Ten times the square of the basic value.
    fn square(&self) -> u64
        ensures { result ≡ cone_square self.now.basis.k self.now.basis.strength self.now.basis.depth self.now.basis.multiple }
    {
        let k = u64::from(self.basis.k);
        let depth = u64::from(self.basis.depth);
        let multiple = u64::from(self.basis.multiple);
        k * k * u64::from(self.basis.strength) * (depth * depth * depth) * (multiple * multiple)
    }
}
