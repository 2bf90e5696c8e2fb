// The forces that the bolts of a case give its anchors, in mN. Lengths in µm.
ghost use Rattle.std.specs.Prelude.{◌≡◌, ◌-◌, ◌*◌, ◌<◌, Contains};
ghost use Rattle.bolts.specs.Loads.{load_of};
ghost use Rattle.forces.specs.Shares.{gap, distances, spread, share};
ghost use Rattle.forces.specs.Cases.{um, mn, anchor_distances};
ghost use Rattle.forces.specs.Exact.{force};
ghost use Rattle.loadcase.specs.Held.{opening_of, bolts_of, case_of};
ghost use Rattle.loadcase.specs.Reckoned.{Reckoned};

use crate::anchor::{AnchorForces, ROOM};
use crate::open::OpenCase;
use arrayvec::ArrayVec;
use bolts::bolt::{Bolt, Direction};
use forces::units::{mn, um};
use roots::division::{Divisor, div_up};

// How much the upper influence length exceeds the lower one.
const SLACK: u64 = 5;

// What is left of a length past the distance between two places.
fn left(length: u64, p: u64, q: u64) -> u64
    ensures { result ≡ length - gap p q }
{
    length.saturating_sub(p.abs_diff(q))
}

impl OpenCase {
    // Where the k-th anchor lies.
    fn anchor_at(&self, k: u32) -> u64
        ensures { result ≡ k * um self.now.channel.spacing }
    {
        u64::from(k) * um(self.channel.spacing)
    }

    // The sum of L - d over the anchors with d < L.
    fn spread_at(&self, place: u64) -> u64
        ensures { result ≡ spread self.now.length (distances self.now.anchors (um self.now.channel.spacing) place) }
    {
        (0..self.anchors)
            .map(|k| left(self.length, place, self.anchor_at(k)))
            .sum()
    }

    // What a bolt of the case gives an anchor: the load times H - d over the spread, rounded up.
    fn share(&self, bolt: Bolt, direction: Direction, anchor: u64) -> u64
        requires { Contains (bolts_of self.now) bolt }
        ensures { result ≡ share (mn (load_of direction bolt)) self.now.length (gap (um bolt.position) anchor) (anchor_distances (opening_of self.now) bolt) }
    {
        let place = um(bolt.position);
        let arm = left(self.length + SLACK, place, anchor);
        let spread = Divisor {
            number: self.spread_at(place),
        };
        let moment = mn(bolt.load(direction)) * arm;
        div_up(moment, spread)
    }

    // The force on the k-th anchor.
    fn force(&self, direction: Direction, k: u32) -> u64
        requires { k < self.now.anchors }
        ensures { result ≡ force (case_of self.now) direction k }
    {
        let anchor = self.anchor_at(k);
        self.table
            .bolts()
            .iter()
            .map(|bolt| self.share(*bolt, direction, anchor))
            .sum()
    }

    // The forces on all anchors.
    pub(crate) fn forces(&self) -> ArrayVec<AnchorForces, ROOM>
        ensures { Reckoned (case_of self.now) result.items }
    {
        let mut all = ArrayVec::new();
        for k in 0..self.anchors {
            all.push(AnchorForces {
                tension: self.force(Direction::Tension, k),
                shear: self.force(Direction::Shear, k),
            });
        }
        all
    }
}
