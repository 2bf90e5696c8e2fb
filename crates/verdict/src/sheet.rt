// What a rating sheet is: thirteen lines, each a failure mode.
ghost use Rattle.std.specs.Prelude.{◌≡◌, ℕ, ◌≤◌, List};
ghost use Rattle.forces.specs.Cases.{Case, Valid};
ghost use Rattle.loadcase.specs.Closed.{closed_case};
ghost use Rattle.failure.specs.Meanings.{Meaning, Lawful};
ghost use Rattle.verdict.specs.Lines.{nth};
ghost use Rattle.verdict.specs.Answers.{show_answer, rate_answer};

use crate::answer::{Shown, Verdict};
use bolts::refusal::Refusal;
use loadcase::closed::ClosedCase;

// A sheet that shows and rates.
pub trait RatingSheet {
    // The meanings of its lines, by the case.
    ghost lines: { Self → Case → List Meaning };

    // The figures of a line at a place, both from 1. Refused where there is no such line and place, then where the
    // line's allowance is above 600.
    fn show(&self, case: &ClosedCase, line: usize, place: usize) -> Result<Shown, Refusal>
        ensures { result ≡ show_answer (lines self.now (closed_case case.now)) line place };

    // The verdict. Refused where the allowance of some line is above 600.
    fn rate(&self, case: &ClosedCase) -> Result<Verdict, Refusal>
        ensures { result ≡ rate_answer (lines self.now (closed_case case.now)) };

    ghost lawful: { (s : Self) (c : Case) → Valid c → (k : ℕ) → Lawful c (nth (lines s c) k) };

    ghost few: { (s : Self) (c : Case) → Valid c → (k : ℕ) → (nth (lines s c) k).places.count ≤ 16 };
}
