// One call on a case.
ghost use Rattle.std.specs.Prelude.{◌≡◌, MatchResult};
ghost use Rattle.std.specs.Result.{ForOk};
ghost use Rattle.history.specs.declared.call.Answer.TheVariants.{Refused};
ghost use Rattle.history.specs.Histories.{answer_of, after, standing};

use crate::any_case::AnyCase;
use crate::call::{Answer, Call};
use bolts::refusal::Refusal;
use verdict::sheet::RatingSheet;

// The answer to a call that may be refused: what is said of its result, else the refusal.
fn answer<T, F: FnOnce(T) -> Answer>(outcome: Result<T, Refusal>, said: F) -> Answer
    requires { ForOk outcome (F.pre said) }
    ensures { MatchResult outcome (λ x. F.post said x result) (λ e. result ≡ Refused e) }
{
    outcome.map_or_else(Answer::Refused, said)
}

// Answers a call, and hands the case on as it then stands. A call that the types of open and closed case would not build
// is out of turn and changes nothing.
pub fn step<S: RatingSheet>(sheet: &S, case: AnyCase, call: Call) -> (AnyCase, Answer)
    ensures answer { result.1 ≡ answer_of (S.RatingSheet.lines sheet.now) (standing case) call }
    ensures after { standing result.0 ≡ after (standing case) call result.1 }
{
    match case {
        AnyCase::Open(mut open) => match call {
            Call::Place(bolt) => {
                let outcome = open.place(bolt);
                let answer = answer(outcome, |()| Answer::Done);
                (AnyCase::Open(open), answer)
            }
            Call::Lift(position) => {
                let outcome = open.lift(position);
                let answer = answer(outcome, |()| Answer::Done);
                (AnyCase::Open(open), answer)
            }
            Call::Close => (AnyCase::Closed(open.close()), Answer::Done),
            _ => (AnyCase::Open(open), Answer::OutOfTurn),
        },
        AnyCase::Closed(closed) => match call {
            Call::Reopen => (AnyCase::Open(closed.reopen()), Answer::Done),
            Call::Show { line, place } => {
                let outcome = sheet.show(&closed, line, place);
                let answer = answer(outcome, Answer::Shown);
                (AnyCase::Closed(closed), answer)
            }
            Call::Rate => {
                let outcome = sheet.rate(&closed);
                let answer = answer(outcome, Answer::Rated);
                (AnyCase::Closed(closed), answer)
            }
            _ => (AnyCase::Closed(closed), Answer::OutOfTurn),
        },
    }
}
