// The combined checks of tension and shear.
ghost use Rattle.std.specs.Prelude.{◌≡◌, nat_le};
ghost use Rattle.verdict.specs.Checks.{bolt_steel, channel, anchor, check_4, sound, failed_check};
ghost use Rattle.verdict.specs.Rows.{row_lines};

use crate::answer::CombinedCheck;
use crate::lines::{LINES, PLACES};
use crate::row::Row;
use crate::table::{largest_at, used_at};
use failure::places::PlaceKind;

// The most of a sum of utilisations, in ten-thousandths.
const MOST_SUM: u64 = 10_000;

// The most of a sum of their squares.
const MOST_SQUARES: u128 = 100_000_000;

// The most of their sum in the concrete.
const MOST_CONCRETE: u64 = 12_000;

// The checks take rows as a bare array, as table.rt says.

// Whether the squares of lines 4 and 8 at a bolt are together at most 100,000,000.
fn bolt_steel_holds(rows: &[Row; LINES], place: usize) -> bool
    ensures { result ≡ nat_le (bolt_steel (row_lines rows.now) place) 100000000 }
{
    let tension = u128::from(used_at(rows, PlaceKind::Bolts, 4, place));
    let shear = u128::from(used_at(rows, PlaceKind::Bolts, 8, place));
    tension * tension + shear * shear <= MOST_SQUARES
}

// Whether the greater of lines 3 and 5 at a bolt and line 9 are together at most 10,000.
fn channel_holds(rows: &[Row; LINES], place: usize) -> bool
    ensures { result ≡ nat_le (channel (row_lines rows.now) place) 10000 }
{
    let lip = used_at(rows, PlaceKind::Bolts, 3, place);
    let flexure = used_at(rows, PlaceKind::Bolts, 5, place);
    let shear = used_at(rows, PlaceKind::Bolts, 9, place);
    u64::from(lip.max(flexure)) + u64::from(shear) <= MOST_SUM
}

// Whether the greater of lines 1 and 2 at an anchor and the greater of lines 10 and 11 are together at most 10,000.
fn anchor_holds(rows: &[Row; LINES], place: usize) -> bool
    ensures { result ≡ nat_le (anchor (row_lines rows.now) place) 10000 }
{
    let anchor = used_at(rows, PlaceKind::Anchors, 1, place);
    let connection = used_at(rows, PlaceKind::Anchors, 2, place);
    let anchor_shear = used_at(rows, PlaceKind::Anchors, 10, place);
    let connection_shear = used_at(rows, PlaceKind::Anchors, 11, place);
    u64::from(anchor.max(connection)) + u64::from(anchor_shear.max(connection_shear)) <= MOST_SUM
}

// Whether the largest of lines 6 and 7 and the largest of lines 12 and 13 are together at most 12,000.
fn concrete_holds(rows: &[Row; LINES]) -> bool
    ensures { result ≡ check_4 (row_lines rows.now) }
{
    let tension = largest_at(rows, 6).max(largest_at(rows, 7));
    let shear = largest_at(rows, 12).max(largest_at(rows, 13));
    u64::from(tension) + u64::from(shear) <= MOST_CONCRETE
}

// The checks by their numbers.
const CHECKS: [CombinedCheck; 4] = [
    CombinedCheck::BoltSteel,
    CombinedCheck::Channel,
    CombinedCheck::Anchor,
    CombinedCheck::Concrete,
];

impl CombinedCheck {
    // Whether the check holds, at every place where it is made at places.
    fn holds(self, rows: &[Row; LINES]) -> bool
        ensures { result ≡ sound self (row_lines rows.now) }
    {
        match self {
            CombinedCheck::BoltSteel => (0..PLACES).all(|place| bolt_steel_holds(rows, place)),
            CombinedCheck::Channel => (0..PLACES).all(|place| channel_holds(rows, place)),
            CombinedCheck::Anchor => (0..PLACES).all(|place| anchor_holds(rows, place)),
            CombinedCheck::Concrete => concrete_holds(rows),
        }
    }
}

// The first check that fails.
pub(crate) fn first_failed(rows: &[Row; LINES]) -> Option<CombinedCheck>
    ensures { result ≡ failed_check (row_lines rows.now) }
{
    CHECKS.iter().copied().find(|check| !check.holds(rows))
}
