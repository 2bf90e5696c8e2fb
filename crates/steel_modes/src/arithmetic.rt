// What several modes share: the range of characteristic values, and the load of a bolt.
ghost use Rattle.std.specs.Prelude.{◌≡◌, length};
ghost use Rattle.bolts.specs.Loads.{load_of};
ghost use Rattle.bolts.specs.Bolts.{bolt_at};
ghost use Rattle.forces.specs.Cases.{mn};
ghost use Rattle.failure.specs.Meanings.{at_place};
ghost use Rattle.steel_modes.specs.Ranges.{value_well};

use bolts::bolt::{Bolt, Direction};
use forces::units::mn;

// The least and the greatest characteristic value, in N.
const LEAST_VALUE: u32 = 1_000;

const MOST_VALUE: u32 = 500_000;

// Whether a characteristic value in N is in range.
// a function for each range: each has its own definition
pub(crate) fn is_value_well(value: u32) -> bool
    ensures { result ≡ value_well value }
{
    (LEAST_VALUE..=MOST_VALUE).contains(&value)
}

// The load of a bolt in mN; none past the last.
pub(crate) fn bolt_load(bolts: &[Bolt], direction: Direction, place: usize) -> Option<u64>
    ensures { result ≡ at_place (length bolts.now) (λ i. mn (load_of direction (bolt_at bolts.now i))) place }
{
    let bolt = bolts.get(place)?;
    Some(mn(bolt.load(direction)))
}
