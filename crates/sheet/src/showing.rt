// Showing one line.
ghost use Rattle.std.specs.Prelude.{◌≡◌};
ghost use Rattle.loadcase.specs.Closed.{closed_case};
ghost use Rattle.sheet.specs.LineAnswers.{line_answer};

use crate::accuracy::MOST_ALLOWANCE;
use bolts::refusal::Refusal;
use failure::mode::FailureMode;
use loadcase::closed::ClosedCase;
use verdict::answer::Shown;
use verdict::figures::figures_at;

// The figures of a mode at a place, from 1. Refused where there is no such place, then where the allowance is above 600.
pub(crate) fn show_line<M: FailureMode>(
    mode: &M,
    case: &ClosedCase,
    place: usize,
) -> Result<Shown, Refusal>
    ensures { result ≡ line_answer (M.FailureMode.meaning mode.now (closed_case case.now)) place }
{
    if place == 0 {
        return Err(Refusal::NoPlace);
    }
    let figures = figures_at(mode, case, place - 1).ok_or(Refusal::NoPlace)?;
    if mode.allowance() > MOST_ALLOWANCE {
        return Err(Refusal::Allowance);
    }
    Ok(figures)
}
