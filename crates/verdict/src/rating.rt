// Showing and rating a closed case on any sheet, with what the answers owe to the exact figures.
ghost use Rattle.std.specs.Prelude.{◌≡◌, ◌-◌, IfOk};
ghost use Rattle.bolts.specs.Loads.{total_load};
ghost use Rattle.loadcase.specs.Closed.{closed_case};
ghost use Rattle.verdict.specs.Lines.{line_count, nth};
ghost use Rattle.verdict.specs.Answers.{show_answer, rate_answer};
ghost use Rattle.verdict.specs.Governing.{Governs};
ghost use Rattle.verdict.specs.Exact.{Readable, Judged};
ghost use Rattle.verdict.specs.Faithful.{Faithful};

use crate::answer::{Shown, Verdict};
use crate::sheet::RatingSheet;
use bolts::refusal::Refusal;
use loadcase::closed::ClosedCase;

// What the sheet shows; apart, since the checker then proves it without the law that `show_place` adds.
fn asked_figures<S: RatingSheet>(
    sheet: &S,
    case: &ClosedCase,
    line: usize,
    place: usize,
) -> Result<Shown, Refusal>
    ensures { result ≡ show_answer (S.RatingSheet.lines sheet.now (closed_case case.now)) line place }
{
    sheet.show(case, line, place)
}

// The figures of a line at a place, both from 1: as the sheet shows them, and faithful to the exact ones.
pub fn show_place<S: RatingSheet>(
    sheet: &S,
    case: &ClosedCase,
    line: usize,
    place: usize,
) -> Result<Shown, Refusal>
    ensures value { result ≡ show_answer (S.RatingSheet.lines sheet.now (closed_case case.now)) line place }
    ensures faithful { IfOk result (Faithful (total_load (nth (S.RatingSheet.lines sheet.now (closed_case case.now)) (line - 1)).direction (closed_case case.now).bolts) (nth (S.RatingSheet.lines sheet.now (closed_case case.now)) (line - 1)) (place - 1)) }
{
    asked_figures(sheet, case, line, place)
}

// The verdict: accepted, and every verification holds exactly; or rejected, and some verification fails once effects
// are raised and resistances lowered by a sliver. Its governing place has the largest utilisation.
pub fn rate_case<S: RatingSheet>(sheet: &S, case: &ClosedCase) -> Result<Verdict, Refusal>
    ensures value { result ≡ rate_answer (S.RatingSheet.lines sheet.now (closed_case case.now)) }
    ensures judged { IfOk result (λ v. Judged (closed_case case.now) (S.RatingSheet.lines sheet.now (closed_case case.now)) v.accepted) }
    ensures readable { Readable (S.RatingSheet.lines sheet.now (closed_case case.now)) }
    ensures governs { IfOk result (λ v. Governs (S.RatingSheet.lines sheet.now (closed_case case.now)) line_count v.governing) }
{
    sheet.rate(case)
}
