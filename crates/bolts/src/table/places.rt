// What a list of bolts tells: whether a position is clear, where it belongs, which bolt lies there, and the load sum.
ghost use Rattle.std.specs.Prelude.{◌≡◌, ℕ, ◌<◌, ◌≤◌, length};
ghost use Rattle.bolts.specs.Bolts.{position_at, Spaced, apart, clear};
ghost use Rattle.bolts.specs.Loads.{total_load};
ghost use Rattle.bolts.specs.Placing.{Found};

use crate::bolt::{Bolt, Direction};

// The least distance between bolts, in tenths.
const CLEARANCE: u32 = 300;

// Whether two positions are clear of each other.
fn are_apart(p: u32, q: u32) -> bool
    ensures { result ≡ apart p q }
{
    p.abs_diff(q) >= CLEARANCE
}

// Whether a position is clear of every bolt.
pub(crate) fn is_clear(bolts: &[Bolt], position: u32) -> bool
    ensures { result ≡ clear position bolts.now }
{
    bolts.iter().all(|b| are_apart(position, b.position))
}

// How many bolts at the front lie before a position.
pub(crate) fn slot(bolts: &[Bolt], position: u32) -> usize
    requires { Spaced bolts.now }
    ensures within { result ≤ length bolts.now }
    ensures before { (k : ℕ) → k < result → position_at bolts.now k < position }
    ensures stop { result < length bolts.now → position ≤ position_at bolts.now result }
{
    bolts.partition_point(|b| b.lies_before(position))
}

// The place of the bolt that lies exactly at a position.
pub(crate) fn find(bolts: &[Bolt], position: u32) -> Option<usize>
    requires { Spaced bolts.now }
    ensures { Found bolts.now position result }
{
    bolts.binary_search_by_key(&position, |b| b.position).ok()
}

// The sum of the bolts' loads in a direction, in N.
pub(crate) fn load_sum(bolts: &[Bolt], direction: Direction) -> u64
    requires { length bolts.now ≤ 16 }
    ensures { result ≡ total_load direction bolts.now }
{
    bolts.iter().map(|b| u64::from(b.load(direction))).sum()
}
