// From the answers to the calls of a job's lines to the outcomes.
ghost use Rattle.std.specs.Prelude.{◌≡◌, length, drop, IfOk};
ghost use Rattle.std.specs.Option.{option_to_list};
ghost use Rattle.job.specs.Scripts.{calls_of};
ghost use Rattle.job.specs.Telling.{told, outcome, outcomes};

use crate::fault::JobRefusal;
use crate::outcome::Outcome;
use crate::script::RATING;
use history::call::Answer;
use job_text::line::JobLine;
use std::alloc::{AllocError, Global};

// The number of the line after the site.
const SECOND_LINE: usize = 2;

// The answer of a rating is the second of its three.
const RATED: usize = 1;

// What an answer tells of a line.
fn told(line: usize, answer: Answer) -> Option<Outcome>
    ensures { option_to_list result ≡ told line answer }
{
    match answer {
        Answer::Refused(refusal) => Some(Outcome::Refused(JobRefusal::Case { refusal, line })),
        Answer::Rated(verdict) => Some(Outcome::Rated(verdict)),
        Answer::Done | Answer::Shown(_) | Answer::OutOfTurn => None,
    }
}

// The outcome of a line, where the answers begin with those to its calls.
fn outcome_of(line: usize, said: Option<JobLine>, answers: &[Answer]) -> Option<Outcome>
    ensures { option_to_list result ≡ outcome line said answers.now }
{
    match said {
        Some(JobLine::Place(_)) | Some(JobLine::Lift(_)) => told(line, *answers.first()?),
        Some(JobLine::Rate) => told(line, *answers.get(RATED)?),
        Some(JobLine::Site(_)) | None => Some(Outcome::Refused(JobRefusal::Line { line })),
    }
}

// How many calls a line makes.
// as many as script.rt's add_calls adds: the clauses of both name the one definition calls_of
fn count_of(said: Option<JobLine>) -> usize
    ensures { result ≡ length (calls_of said) }
{
    match said {
        Some(JobLine::Place(_)) | Some(JobLine::Lift(_)) => 1,
        Some(JobLine::Rate) => RATING.len(),
        Some(JobLine::Site(_)) | None => 0,
    }
}

// The answers after the first so many.
fn past(answers: &[Answer], count: usize) -> &[Answer]
    ensures { result.now ≡ drop count answers.now }
{
    answers.get(count..).unwrap_or(&[])
}

// The outcomes of the lines after the first, from the answers to their calls.
pub(crate) fn outcomes_of(
    heap: Global,
    lines: &[Option<JobLine>],
    answers: &[Answer],
) -> Result<Vec<Outcome>, AllocError>
    ensures { IfOk result (λ v. v.items ≡ outcomes 2 lines.now answers.now) }
{
    let mut outcomes = Vec::new(heap);
    let mut left = answers;
    for (number, line) in (SECOND_LINE..).zip(lines) {
        outcomes.extend(outcome_of(number, *line, left))?;
        left = past(left, count_of(*line));
    }
    Ok(outcomes)
}
