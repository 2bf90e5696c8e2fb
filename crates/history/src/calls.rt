// A list of calls on a new case.
ghost use Rattle.history.specs.Promises.{Kept};

use crate::any_case::AnyCase;
use crate::call::{Answer, Call};
use crate::step::step;
use bolts::fault::Fault;
use forces::opening::Opening;
use loadcase::open::OpenCase;
use std::alloc::Global;
use verdict::sheet::RatingSheet;

// Opens a case and answers the calls one after the other. Refused where a number of the opening is out of range; else
// only memory can be wanting, and that before the first call.
pub fn answer_calls<S: RatingSheet>(
    heap: Global,
    sheet: &S,
    opening: Opening,
    calls: &[Call],
) -> Result<Vec<Answer>, Fault>
    ensures { Kept (S.RatingSheet.lines sheet.now) opening calls.now result }
{
    let mut case = AnyCase::Open(OpenCase::open(heap, opening)?);
    let mut answers = Vec::with_capacity(heap, calls.len())?;
    for call in calls {
        let (next, answer) = step(sheet, case, *call);
        answers.push_reserved(answer);
        case = next;
    }
    Ok(answers)
}
