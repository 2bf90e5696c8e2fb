// Closing and reopening a case, and what a closed case tells.
ghost use Rattle.std.specs.Prelude.{◌≡◌, IfSome, if◌then◌else◌, Some, None, nat_lt};
ghost use Rattle.bolts.specs.Neighbours.{Nearest};
ghost use Rattle.forces.specs.Exact.{length_of, force, NeverBelow, HardlyAbove, Bounded};
ghost use Rattle.loadcase.specs.Held.{case_of};
ghost use Rattle.loadcase.specs.Closed.{closed_case};

use crate::closed::ClosedCase;
use crate::open::OpenCase;
use bolts::bolt::{Bolt, Direction};
use forces::opening::Opening;

impl OpenCase {
    // Reckons the anchor forces.
    pub fn close(self) -> ClosedCase
        ensures { closed_case result ≡ case_of self }
    {
        let forces = self.forces();
        ClosedCase {
            within: self,
            forces,
        }
    }
}

impl ClosedCase {
    // Drops the anchor forces.
    pub fn reopen(self) -> OpenCase
        ensures { case_of result ≡ closed_case self }
    {
        let ClosedCase { within, forces: _ } = self;
        within
    }

    // The numbers that the case was opened with.
    pub fn opening(&self) -> Opening
        ensures { result ≡ (closed_case self.now).opening }
    {
        self.within.opening()
    }

    // The bolts, in rising position.
    pub fn bolts(&self) -> &[Bolt]
        ensures { result.now ≡ (closed_case self.now).bolts }
    {
        self.within.bolts()
    }

    // The influence length in µm.
    pub fn influence_length(&self) -> u64
        ensures { result ≡ length_of (closed_case self.now).opening }
    {
        self.within.influence_length()
    }

    // How far the k-th bolt, from 0, lies from the nearest other one, in tenths; none where there is no other.
    pub fn nearest(&self, k: usize) -> Option<u32>
        ensures { Nearest (closed_case self.now).bolts k result }
    {
        self.within.nearest(k)
    }

    // The force in mN on the k-th anchor, from 0; none past the last.
    pub fn force(&self, direction: Direction, k: usize) -> Option<u64>
        ensures value { result ≡ (if nat_lt k (closed_case self.now).opening.anchors then Some (force (closed_case self.now) direction k) else None) }
        ensures never_below { IfSome result (NeverBelow (closed_case self.now) direction k) }
        ensures hardly_above { IfSome result (HardlyAbove (closed_case self.now) direction k) }
        ensures bounded { Bounded (closed_case self.now) direction }
    {
        self.forces
            .get(k)
            .map(|forces| forces.in_direction(direction))
    }
}
