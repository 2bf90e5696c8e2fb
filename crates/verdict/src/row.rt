// A row of a sheet: the figures of one line.
ghost use Rattle.std.specs.Prelude.{◌≡◌, ◌≤◌, take};
ghost use Rattle.verdict.specs.Figures.{Consistent};

use crate::answer::Shown;
use crate::lines::PLACES;
use failure::places::PlaceKind;

// What the places of the line are, how many, and the figures of each; all 0 past the last place.
// an array with a count, no ArrayVec: a row is Copy
#[derive(Clone, Copy)]
pub struct Row {
    pub kind: PlaceKind,
    pub count: usize,
    pub figures: [Shown; PLACES],
    ghost few: { count ≤ 16 },
    ghost consistent: { Consistent figures },
}

impl Row {
    // The figures of the line's places.
    pub(crate) fn shown(&self) -> &[Shown]
        ensures { result.now ≡ take self.now.count self.now.figures }
    {
        &self.figures[..self.count]
    }
}
