// What the thirteen lines of a sheet tell, asked line by line. Each function names them anew: with a list by types, a line
// and then the rest, goals on the lifetimes of nested borrows stay open from the ninth on.
ghost use Rattle.std.specs.Prelude.{◌≡◌, ◌+◌, ◌<◌, Err, slice_index, slice_index_or};
ghost use Rattle.bolts.specs.declared.refusal.Refusal.TheVariants.{NoPlace};
ghost use Rattle.forces.specs.Cases.{Case};
ghost use Rattle.loadcase.specs.Closed.{closed_case};
ghost use Rattle.verdict.specs.Rows.{no_row, RowOf};
ghost use Rattle.sheet.specs.Each.{OfEach};
ghost use Rattle.sheet.specs.LineAnswers.{line_answer};

use crate::lines::Sheet;
use crate::showing::show_line;
use bolts::refusal::Refusal;
use failure::mode::FailureMode;
use loadcase::closed::ClosedCase;
use verdict::answer::Shown;
use verdict::figures::row;
use verdict::lines::LINES;
use verdict::row::Row;
use verdict::sheet::RatingSheet;

impl<
    M1: FailureMode,
    M2: FailureMode,
    M3: FailureMode,
    M4: FailureMode,
    M5: FailureMode,
    M6: FailureMode,
    M7: FailureMode,
    M8: FailureMode,
    M9: FailureMode,
    M10: FailureMode,
    M11: FailureMode,
    M12: FailureMode,
    M13: FailureMode,
> Sheet<M1, M2, M3, M4, M5, M6, M7, M8, M9, M10, M11, M12, M13> {
    // The rows of the lines.
    pub(crate) fn table(&self, case: &ClosedCase) -> [Row; LINES]
        ensures { OfEach (λ k m. RowOf m (slice_index_or result k no_row)) (⟦<Self as RatingSheet>⟧.lines self.now (closed_case case.now)) }
    {
        [
            row(&self.line1, case),
            row(&self.line2, case),
            row(&self.line3, case),
            row(&self.line4, case),
            row(&self.line5, case),
            row(&self.line6, case),
            row(&self.line7, case),
            row(&self.line8, case),
            row(&self.line9, case),
            row(&self.line10, case),
            row(&self.line11, case),
            row(&self.line12, case),
            row(&self.line13, case),
        ]
    }

    // The allowances of the lines.
    pub(crate) fn allowances(&self) -> [u32; LINES]
        ensures { (c : Case) → OfEach (λ k m. slice_index result k ≡ m.allowance) (⟦<Self as RatingSheet>⟧.lines self.now c) }
    {
        [
            self.line1.allowance(),
            self.line2.allowance(),
            self.line3.allowance(),
            self.line4.allowance(),
            self.line5.allowance(),
            self.line6.allowance(),
            self.line7.allowance(),
            self.line8.allowance(),
            self.line9.allowance(),
            self.line10.allowance(),
            self.line11.allowance(),
            self.line12.allowance(),
            self.line13.allowance(),
        ]
    }

    // The figures of a line at a place, both from 1.
    pub(crate) fn show_at(
        &self,
        case: &ClosedCase,
        line: usize,
        place: usize,
    ) -> Result<Shown, Refusal>
        ensures outside { line ≡ 0 → result ≡ Err NoPlace }
        ensures past { 13 < line → result ≡ Err NoPlace }
        ensures inside { OfEach (λ k m. line ≡ k + 1 → result ≡ line_answer m place) (⟦<Self as RatingSheet>⟧.lines self.now (closed_case case.now)) }
    {
        match line {
            1 => show_line(&self.line1, case, place),
            2 => show_line(&self.line2, case, place),
            3 => show_line(&self.line3, case, place),
            4 => show_line(&self.line4, case, place),
            5 => show_line(&self.line5, case, place),
            6 => show_line(&self.line6, case, place),
            7 => show_line(&self.line7, case, place),
            8 => show_line(&self.line8, case, place),
            9 => show_line(&self.line9, case, place),
            10 => show_line(&self.line10, case, place),
            11 => show_line(&self.line11, case, place),
            12 => show_line(&self.line12, case, place),
            13 => show_line(&self.line13, case, place),
            _ => Err(Refusal::NoPlace),
        }
    }
}
