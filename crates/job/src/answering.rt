// The answers of a channel's sheet to a list of calls.
ghost use Rattle.std.specs.Prelude.{IfOk};
ghost use Rattle.history.specs.Promises.{Promise};
ghost use Rattle.rating.specs.Meanings.{channel_lines};

use bolts::fault::Fault;
use history::call::{Answer, Call};
use rating::prepared::Prepared;
use session::answer_session;
use std::alloc::{AllocError, Global};

// The answers to calls on a new case of the sheet. Its numbers are in range, so only memory can be wanting.
pub(crate) fn answers_on(
    heap: Global,
    prepared: &Prepared,
    calls: &[Call],
) -> Result<Vec<Answer>, AllocError>
    ensures { IfOk result (λ v. Promise (channel_lines prepared.now.sheet) prepared.now.opening calls.now v.items) }
{
    // a match: after map_err the promise on the answers stays open
    match answer_session(heap, &prepared.sheet, prepared.opening, calls) {
        Ok(answers) => Ok(answers),
        Err(Fault::Memory) => Err(AllocError),
        Err(Fault::Refused(_)) => unreachable(),
    }
}
