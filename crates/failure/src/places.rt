// The places of a load case at which a failure mode compares an effect with a resistance.
ghost use Rattle.std.specs.Prelude.{◌≡◌, ◌<◌};
ghost use Rattle.loadcase.specs.Closed.{closed_case};
ghost use Rattle.failure.specs.Meanings.{at_place};
ghost use Rattle.failure.specs.Places.{on_bolts, on_anchors};

use loadcase::closed::ClosedCase;

// What a place is.
#[derive(Clone, Copy, Debug, PartialEq, Eq)]
pub enum PlaceKind {
    Bolts,
    Anchors,
    // the project's form of a mode without places: this kind, and the count 0
    Nothing,
}

// The places of a mode in a case: what they are, and how many. They count from 0.
#[derive(Clone, Copy, Debug, PartialEq, Eq)]
pub struct Places {
    pub kind: PlaceKind,
    pub count: usize,
}

impl Places {
    // The bolts of a case.
    pub fn on_bolts(case: &ClosedCase) -> Self
        ensures { result ≡ on_bolts (closed_case case.now) }
    {
        Places {
            kind: PlaceKind::Bolts,
            count: case.bolts().len(),
        }
    }

    // The anchors of a case.
    pub fn on_anchors(case: &ClosedCase) -> Self
        ensures { result ≡ on_anchors (closed_case case.now) }
    {
        Places {
            kind: PlaceKind::Anchors,
            count: case.opening().anchors as usize,
        }
    }

    // A number that is the same at each place; none past the last.
    pub fn at_each(self, value: u64, place: usize) -> Option<u64>
        ensures { result ≡ at_place self.count (λ _. value) place }
    {
        (place < self.count).then_some(value)
    }
}

// A place of a mode in a case. There are few.
#[derive(Clone, Copy)]
pub struct Place<'a> {
    pub case: &'a ClosedCase,
    pub kind: PlaceKind,
    pub index: usize,
    ghost few: { index < 16 },
}
