// The one call that carries the whole promise: opening numbers, any thirteen failure modes and any list of the calls place,
// lift, close, reopen, show and rate. The crate promises of every such list what `Promise` says: the answers are those of
// the bolts placed and not lifted since, every figure shown lies on the safe side of the exact one and close to it, and
// every verdict is right on the exact figures.
#![tactic(auto)]

ghost use Rattle.std.specs.Prelude.{[], ◌∷◌};
ghost use Rattle.history.specs.Promises.{Kept};

use bolts::fault::Fault;
use failure::mode::FailureMode;
use forces::opening::Opening;
use history::call::{Answer, Call};
use history::calls::answer_calls;
use sheet::lines::Sheet;
use std::alloc::Global;

// Opens a case and answers the calls one after the other on a sheet of thirteen lines. Refused where a number of the
// opening is out of range; else only memory can be wanting, and that before the first call.
// thirteen types by name, as `Sheet` has them
pub fn answer_session<
    M1: FailureMode,
    M2: FailureMode,
    M3: FailureMode,
    M4: FailureMode,
    M5: FailureMode,
    M6: FailureMode,
    M7: FailureMode,
    M8: FailureMode,
    M9: FailureMode,
    M10: FailureMode,
    M11: FailureMode,
    M12: FailureMode,
    M13: FailureMode,
>(
    heap: Global,
    sheet: &Sheet<M1, M2, M3, M4, M5, M6, M7, M8, M9, M10, M11, M12, M13>,
    opening: Opening,
    calls: &[Call],
) -> Result<Vec<Answer>, Fault>
    ensures { Kept (λ c. M1.FailureMode.meaning sheet.now.line1 c ∷ M2.FailureMode.meaning sheet.now.line2 c ∷ M3.FailureMode.meaning sheet.now.line3 c ∷ M4.FailureMode.meaning sheet.now.line4 c ∷ M5.FailureMode.meaning sheet.now.line5 c ∷ M6.FailureMode.meaning sheet.now.line6 c ∷ M7.FailureMode.meaning sheet.now.line7 c ∷ M8.FailureMode.meaning sheet.now.line8 c ∷ M9.FailureMode.meaning sheet.now.line9 c ∷ M10.FailureMode.meaning sheet.now.line10 c ∷ M11.FailureMode.meaning sheet.now.line11 c ∷ M12.FailureMode.meaning sheet.now.line12 c ∷ M13.FailureMode.meaning sheet.now.line13 c ∷ []) opening calls.now result }
{
    answer_calls(heap, sheet, opening, calls)
}
