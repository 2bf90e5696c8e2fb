// How far the nearer corner lies from a place, in µm.
ghost use Rattle.std.specs.Prelude.{◌≡◌, ◌≤◌};
ghost use Rattle.forces.specs.Cases.{reach, um};
ghost use Rattle.bolts.specs.Bolts.{position_at};
ghost use Rattle.loadcase.specs.Closed.{closed_case};
ghost use Rattle.failure.specs.Corners.{position_of, corner_distance};

use crate::corner::Corner;
use crate::places::{Place, PlaceKind};
use bolts::bolt::Bolt;
use forces::units::um;
use loadcase::closed::ClosedCase;

impl Corner {
    // The distance of the nearer corner from a place: each corner's from its anchor, and the anchor's from the place.
    pub(crate) fn distance(&self, place: Place<'_>) -> u64
        ensures value { result ≡ corner_distance (closed_case place.entry.case.now) place.entry.kind self.now.first self.now.last place.entry.index }
        ensures enough { 25000 ≤ result }
    {
        let position = place.position();
        let by_first = self.first + position;
        let by_last = self.last + position.abs_diff(last_anchor(place.case));
        by_first.min(by_last)
    }
}

// Where the last anchor lies.
fn last_anchor(case: &ClosedCase) -> u64
    ensures value { result ≡ um (reach (closed_case case.now).opening) }
    ensures within { result ≤ 2750000 }
{
    let opening = case.opening();
    um((opening.anchors - 1) * opening.spacing)
}

impl Place<'_> {
    // Where it lies.
    fn position(self) -> u64
        ensures value { result ≡ position_of (closed_case self.entry.case.now) self.entry.kind self.entry.index }
        ensures within { result ≤ 10000000000000 }
    {
        let tenths = match self.kind {
            PlaceKind::Bolts => bolt_position(self.case.bolts(), self.index),
            // below 16; u32 has no From<usize>
            PlaceKind::Anchors => self.index as u32 * self.case.opening().spacing,
            PlaceKind::Nothing => 0,
        };
        um(tenths)
    }
}

// The position of the k-th bolt, from 0, in tenths; past the end 0, as the definition has it.
fn bolt_position(bolts: &[Bolt], k: usize) -> u32
    ensures { result ≡ position_at bolts.now k }
{
    bolts.get(k).map_or(0, |bolt| bolt.position)
}
