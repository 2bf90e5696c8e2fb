// The calls that the lines after the site make.
ghost use Rattle.std.specs.Prelude.{◌≡◌, true, ◌++◌, is_ok, IfOk};
ghost use Rattle.job.specs.Scripts.{calls_of, script};

use history::call::Call;
use job_text::line::JobLine;
use std::alloc::{AllocError, Global};

// A rating closes the case, rates it and reopens it.
pub(crate) const RATING: [Call; 3] = [Call::Close, Call::Rate, Call::Reopen];

// Adds the calls of one line: none for a line that is refused.
// not a slice that telling.rt counts too: a bolt's call would have to stand somewhere
fn add_calls(calls: &mut Vec<Call>, said: Option<JobLine>) -> Result<(), AllocError>
    ensures { is_ok result ≡ true → calls.new.items ≡ calls.old.items ++ calls_of said }
{
    match said {
        Some(JobLine::Place(bolt)) => calls.push(Call::Place(bolt))?,
        Some(JobLine::Lift(position)) => calls.push(Call::Lift(position))?,
        Some(JobLine::Rate) => calls.extend_from_slice(&RATING)?,
        Some(JobLine::Site(_)) | None => (),
    }
    Ok(())
}

pub(crate) fn script_of(heap: Global, said: &[Option<JobLine>]) -> Result<Vec<Call>, AllocError>
    ensures { IfOk result (λ v. v.items ≡ script said.now) }
{
    let mut calls = Vec::new(heap);
    for line in said {
        add_calls(&mut calls, *line)?;
    }
    Ok(calls)
}
