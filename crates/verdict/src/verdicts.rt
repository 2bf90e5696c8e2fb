// The verdict on thirteen rows.
ghost use Rattle.std.specs.Prelude.{◌≡◌};
ghost use Rattle.verdict.specs.Lines.{line_count};
ghost use Rattle.verdict.specs.Governing.{Governs};
ghost use Rattle.verdict.specs.Answers.{verdict};
ghost use Rattle.verdict.specs.Rows.{row_lines};

use crate::answer::Verdict;
use crate::checks::first_failed;
use crate::governing::governing_of;
use crate::lines::LINES;
use crate::row::Row;
use crate::table::none_past;

// Accepted exactly where no utilisation passes 10,000 and every combined check holds, with the governing place and the
// first check that fails.
pub fn verdict_of(rows: &[Row; LINES]) -> Verdict
    ensures value { result ≡ verdict (row_lines rows.now) }
    ensures governs { Governs (row_lines rows.now) line_count result.governing }
{
    let failed_check = first_failed(rows);
    Verdict {
        accepted: none_past(rows) && failed_check.is_none(),
        governing: governing_of(rows),
        failed_check,
    }
}
