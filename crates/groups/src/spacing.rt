// The characteristic spacing of a group, and the weight of a neighbour at a distance.
ghost use Rattle.std.specs.Prelude.{◌≡◌, ◌<◌, ◌≤◌, MatchOption};
ghost use Rattle.groups.specs.Weights.{weight};

use roots::division::{Divisor, div_up};
use roots::ratio::Ratio;

// The most that a characteristic spacing is, in µm.
const MOST_SPACING: u64 = 2_500_000;

// A characteristic spacing in µm, from which on a neighbour has no weight.
#[derive(Clone, Copy)]
pub struct CharacteristicSpacing {
    pub um: u64,
    ghost some: { 0 < um },
    ghost small: { um ≤ 2500000 },
}

impl CharacteristicSpacing {
    // The spacing, where it is 1 to 2,500,000 µm; none elsewhere.
    pub fn new(um: u64) -> Option<CharacteristicSpacing>
        ensures { MatchOption result (0 < um → um ≤ 2500000 → ⊥) (λ x. x.um ≡ um) }
    {
        if (1..=MOST_SPACING).contains(&um) {
            Some(CharacteristicSpacing { um })
        } else {
            None
        }
    }

    // The weight of a neighbour at a distance in µm, in millionths, rounded up.
    pub fn weight(self, distance: u64) -> u64
        ensures { result ≡ weight self.um distance }
    {
        if distance >= self.um {
            return 0;
        }
        let left = Ratio {
            a: self.um - distance,
            b: self.um,
        };
        div_up(left.a * left.root_up(), Divisor { number: self.um })
    }
}
