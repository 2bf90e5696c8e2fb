// The figures of a failure mode.
ghost use Rattle.std.specs.Prelude.{◌≡◌};
ghost use Rattle.loadcase.specs.Closed.{closed_case};
ghost use Rattle.verdict.specs.Figures.{figures_at};
ghost use Rattle.verdict.specs.Rows.{RowOf};

use crate::answer::Shown;
use crate::lines::PLACES;
use crate::row::Row;
use crate::utilised::utilisation;
use failure::mode::FailureMode;
use loadcase::closed::ClosedCase;

const NO_FIGURES: Shown = Shown {
    effect: 0,
    resistance: 0,
    utilisation: 0,
};

// The figures of a mode at a place, from 0; none past the last.
pub fn figures_at<M: FailureMode>(mode: &M, case: &ClosedCase, place: usize) -> Option<Shown>
    ensures { result ≡ figures_at (M.FailureMode.meaning mode.now (closed_case case.now)) place }
{
    let effect = mode.effect(case, place)?;
    let resistance = mode.resistance(case, place)?;
    Some(Shown {
        effect,
        resistance,
        utilisation: utilisation(effect, resistance),
    })
}

// The row of a mode.
pub fn row<M: FailureMode>(mode: &M, case: &ClosedCase) -> Row
    ensures { RowOf (M.FailureMode.meaning mode.now (closed_case case.now)) result }
{
    let mut figures = [NO_FIGURES; PLACES];
    let mut count = 0;
    while let Some(shown) = figures_at(mode, case, count) {
        figures[count] = shown;
        count += 1;
    }
    Row {
        kind: mode.places(case).kind,
        count,
        figures,
    }
}
