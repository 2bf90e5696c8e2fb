// Ranges and characteristic spacing of the edge.
ghost use Rattle.std.specs.Prelude.{◌≡◌};
ghost use Rattle.steel_modes.specs.Ranges.{Made};
ghost use Rattle.concrete_modes.specs.Edges.{well_of, edge_spacing};

use crate::edge::EdgeBasis;
use forces::units::um;
use groups::spacing::CharacteristicSpacing;

const LEAST_K: u32 = 10;

const MOST_K: u32 = 110;

const LEAST_STRENGTH: u32 = 12;

const MOST_STRENGTH: u32 = 75;

const LEAST_DISTANCE: u32 = 250;

const MOST_DISTANCE: u32 = 5_000;

const LEAST_WIDTH: u32 = 150;

const MOST_WIDTH: u32 = 800;

const LEAST_P: u32 = 100;

const MOST_P: u32 = 140;

impl EdgeBasis {
    // Whether all numbers are in range.
    fn is_well(self) -> bool
        ensures { result ≡ well_of self }
    {
        (LEAST_K..=MOST_K).contains(&self.k)
            && (LEAST_STRENGTH..=MOST_STRENGTH).contains(&self.strength)
            && (LEAST_DISTANCE..=MOST_DISTANCE).contains(&self.distance)
            && (LEAST_WIDTH..=MOST_WIDTH).contains(&self.width)
            && (LEAST_P..=MOST_P).contains(&self.p)
    }

    // The characteristic spacing in µm, four times the edge distance and twice the channel width; none where a number is
    // out of range.
    pub(crate) fn characteristic_spacing(self) -> Option<CharacteristicSpacing>
        ensures { Made (well_of self) (λ s. s.um ≡ edge_spacing self.distance self.width) result }
    {
        if !self.is_well() {
            return None;
        }
        Some(CharacteristicSpacing {
            um: um(4 * self.distance + 2 * self.width),
        })
    }
}
