// The governing place: the largest utilisation, with the lowest line and place that have it.
ghost use Rattle.std.specs.Prelude.{◌≡◌};
ghost use Rattle.verdict.specs.Governing.{larger, with_places, governing};
ghost use Rattle.verdict.specs.Rows.{row_line, row_lines};

use crate::answer::Governing;
use crate::lines::LINES;
use crate::row::Row;

// The second where it is larger, or where there is no first; else the first.
fn larger_of(first: Option<Governing>, second: Governing) -> Governing
    ensures { result ≡ larger first second }
{
    match first {
        Some(first) if second.utilisation <= first.utilisation => first,
        _ => second,
    }
}

// The governing place with one line more, whose number is `line`.
fn with_line(before: Option<Governing>, row: &Row, line: usize) -> Option<Governing>
    ensures { result ≡ with_places before line (row_line row.now) row.now.count }
{
    // no max_by_key: of equals the first stays
    let mut best = before;
    for (i, shown) in row.shown().iter().enumerate() {
        let next = Governing {
            utilisation: shown.utilisation,
            line,
            place: i + 1,
        };
        best = Some(larger_of(best, next));
    }
    best
}

// The governing place of thirteen lines; a bare array, as table.rt says.
pub(crate) fn governing_of(rows: &[Row; LINES]) -> Option<Governing>
    ensures { result ≡ governing (row_lines rows.now) }
{
    // no max_by_key: of equals the first stays
    let mut best = None;
    for (k, row) in rows.iter().enumerate() {
        best = with_line(best, row, k + 1);
    }
    best
}
