// What thirteen rows tell of their lines. Lines count from 1, places from 0.
ghost use Rattle.std.specs.Prelude.{◌≡◌, ◌-◌, ◌≤◌, nat_le, slice_index_or};
ghost use Rattle.verdict.specs.Utilisations.{used, largest};
ghost use Rattle.verdict.specs.Checks.{line_within, none_over};
ghost use Rattle.verdict.specs.Rows.{no_row, row_line, row_lines};

use crate::answer::Shown;
use crate::lines::LINES;
use crate::row::Row;
use crate::utilised::WHOLE;
use failure::places::PlaceKind;

impl Shown {
    // Whether the utilisation does not pass 10,000.
    fn is_within(&self) -> bool
        ensures { result ≡ nat_le self.now.utilisation 10000 }
    {
        self.utilisation <= WHOLE
    }
}

impl Row {
    // The utilisation at a place of the kind.
    // 0, no Option: a line without the place uses nothing
    fn used(&self, kind: PlaceKind, place: usize) -> u32
        ensures { result ≡ used kind (row_line self.now) place }
    {
        if self.kind != kind {
            return 0;
        }
        self.shown().get(place).map_or(0, |shown| shown.utilisation)
    }

    // The largest utilisation.
    // 0, no Option: a line without a place uses nothing
    fn largest(&self) -> u32
        ensures { result ≡ largest (row_line self.now) }
    {
        let utilisations = self.shown().iter().map(|shown| shown.utilisation);
        utilisations.max().unwrap_or(0)
    }

    // Whether no utilisation passes 10,000.
    fn is_within(&self) -> bool
        ensures { result ≡ line_within (row_line self.now) }
    {
        self.shown().iter().all(Shown::is_within)
    }
}

// From here on functions of thirteen rows: `verdict_of` is given a bare array, and around it a struct would say no more.

// The utilisation of a line at a place of the kind; 0 where it has no such place.
pub(crate) fn used_at(rows: &[Row; LINES], kind: PlaceKind, line: usize, place: usize) -> u32
    requires { (1 ≤ line) × (line ≤ 13) }
    ensures { result ≡ used kind (row_line (slice_index_or rows.now (line - 1) no_row)) place }
{
    rows[line - 1].used(kind, place)
}

// The largest utilisation of a line; 0 where it has no place.
pub(crate) fn largest_at(rows: &[Row; LINES], line: usize) -> u32
    requires { (1 ≤ line) × (line ≤ 13) }
    ensures { result ≡ largest (row_line (slice_index_or rows.now (line - 1) no_row)) }
{
    rows[line - 1].largest()
}

// Whether no utilisation of the thirteen lines passes 10,000.
pub(crate) fn none_past(rows: &[Row; LINES]) -> bool
    ensures { result ≡ none_over (row_lines rows.now) }
{
    rows.iter().all(Row::is_within)
}
