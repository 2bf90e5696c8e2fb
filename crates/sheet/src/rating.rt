// Rating on a sheet of thirteen lines.
ghost use Rattle.std.specs.Prelude.{◌≤◌, [], ◌∷◌};
ghost use Rattle.std.proofs.Common.{arith};
ghost use Rattle.failure.specs.Meanings.{Lawful, Meaning};
ghost use Rattle.sheet.specs.Each.{each_line};

use crate::accuracy::are_accurate;
use crate::lines::Sheet;
use bolts::refusal::Refusal;
use failure::mode::FailureMode;
use loadcase::closed::ClosedCase;
use verdict::answer::{Shown, Verdict};
use verdict::sheet::RatingSheet;
use verdict::verdicts::verdict_of;

// thirteen types by name, as `Sheet` has them
impl<
    M1: FailureMode,
    M2: FailureMode,
    M3: FailureMode,
    M4: FailureMode,
    M5: FailureMode,
    M6: FailureMode,
    M7: FailureMode,
    M8: FailureMode,
    M9: FailureMode,
    M10: FailureMode,
    M11: FailureMode,
    M12: FailureMode,
    M13: FailureMode,
> RatingSheet for Sheet<M1, M2, M3, M4, M5, M6, M7, M8, M9, M10, M11, M12, M13> {
    ghost lines = { λ s c. M1.FailureMode.meaning s.line1 c ∷ M2.FailureMode.meaning s.line2 c ∷ M3.FailureMode.meaning s.line3 c ∷ M4.FailureMode.meaning s.line4 c ∷ M5.FailureMode.meaning s.line5 c ∷ M6.FailureMode.meaning s.line6 c ∷ M7.FailureMode.meaning s.line7 c ∷ M8.FailureMode.meaning s.line8 c ∷ M9.FailureMode.meaning s.line9 c ∷ M10.FailureMode.meaning s.line10 c ∷ M11.FailureMode.meaning s.line11 c ∷ M12.FailureMode.meaning s.line12 c ∷ M13.FailureMode.meaning s.line13 c ∷ [] };

    ghost lawful = { λ s c valid.
        each_line (Lawful c) (⟦<Self as RatingSheet>⟧.lines s c) (λ i h. absurd (omega arith))
        (M1.FailureMode.lawful s.line1 c valid, (M2.FailureMode.lawful s.line2 c valid, (M3.FailureMode.lawful s.line3 c valid, (M4.FailureMode.lawful s.line4 c valid, (M5.FailureMode.lawful s.line5 c valid, (M6.FailureMode.lawful s.line6 c valid, (M7.FailureMode.lawful s.line7 c valid, (M8.FailureMode.lawful s.line8 c valid, (M9.FailureMode.lawful s.line9 c valid, (M10.FailureMode.lawful s.line10 c valid, (M11.FailureMode.lawful s.line11 c valid, (M12.FailureMode.lawful s.line12 c valid, (M13.FailureMode.lawful s.line13 c valid, tt))))))))))))) };

    ghost few = { λ s c valid.
        each_line (λ (m : Meaning). m.places.count ≤ 16) (⟦<Self as RatingSheet>⟧.lines s c) (omega arith)
        (M1.FailureMode.few s.line1 c valid, (M2.FailureMode.few s.line2 c valid, (M3.FailureMode.few s.line3 c valid, (M4.FailureMode.few s.line4 c valid, (M5.FailureMode.few s.line5 c valid, (M6.FailureMode.few s.line6 c valid, (M7.FailureMode.few s.line7 c valid, (M8.FailureMode.few s.line8 c valid, (M9.FailureMode.few s.line9 c valid, (M10.FailureMode.few s.line10 c valid, (M11.FailureMode.few s.line11 c valid, (M12.FailureMode.few s.line12 c valid, (M13.FailureMode.few s.line13 c valid, tt))))))))))))) };

    fn show(&self, case: &ClosedCase, line: usize, place: usize) -> Result<Shown, Refusal> {
        self.show_at(case, line, place)
    }

    fn rate(&self, case: &ClosedCase) -> Result<Verdict, Refusal> {
        if !are_accurate(&self.allowances()) {
            return Err(Refusal::Allowance);
        }
        Ok(verdict_of(&self.table(case)))
    }
}
