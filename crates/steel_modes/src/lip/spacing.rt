// The resistance of the lips, by the distance to the nearest other bolt.
ghost use Rattle.std.specs.Prelude.{◌≡◌, ◌+◌, ◌*◌, ◌/◌, ◌<◌, length};
ghost use Rattle.loadcase.specs.Closed.{closed_case};
ghost use Rattle.steel_modes.specs.Ranges.{spacing_well};
ghost use Rattle.steel_modes.specs.Nearby.{nearest_of};
ghost use Rattle.steel_modes.specs.Shared.{lip_down};

use crate::design::Characteristic;
use crate::lip::Lip;
use loadcase::closed::ClosedCase;

// The least and the greatest spacing, in tenths.
const LEAST_SPACING: u32 = 200;

const MOST_SPACING: u32 = 3_000;

// Whether a spacing in tenths is in range.
// a function for each range: each has its own definition
pub(crate) fn is_spacing_well(spacing: u32) -> bool
    ensures { result ≡ spacing_well spacing }
{
    (LEAST_SPACING..=MOST_SPACING).contains(&spacing)
}

impl Lip {
    // The resistance in mN with the nearest other bolt at a distance in tenths, if there is another.
    pub(crate) fn resistance_by(&self, nearest: Option<u32>) -> u64
        ensures { result ≡ lip_down self.now.value self.now.factor self.now.spacing nearest }
    {
        match nearest {
            Some(distance) if distance < self.spacing => self.shared(distance),
            _ => self.whole().design(self.factor).value,
        }
    }

    fn whole(&self) -> Characteristic
        ensures { result.hundredths ≡ self.now.value * 100000 }
    {
        Characteristic::from_newtons(self.value)
    }

    // The value over the factor, times (spacing + distance) over twice the spacing, down.
    fn shared(&self, distance: u32) -> u64
        requires { distance < self.now.spacing }
        ensures { result ≡ self.now.value * 100000 * (self.now.spacing + distance) / self.now.factor.hundredths / (2 * self.now.spacing) }
    {
        let both = Characteristic {
            hundredths: self.whole().hundredths * u64::from(self.spacing + distance),
        };
        both.design(self.factor).value / (2 * u64::from(self.spacing))
    }
}

// How far the nearest other bolt lies, in tenths; none where there is no other.
pub(crate) fn nearest_of(case: &ClosedCase, place: usize) -> Option<u32>
    requires { place < length (closed_case case.now).bolts }
    ensures { result ≡ nearest_of (closed_case case.now).bolts place }
{
    case.nearest(place)
}
