// A closed case: an open one with the forces on its anchors.
ghost use Rattle.loadcase.specs.Held.{case_of};
ghost use Rattle.loadcase.specs.Reckoned.{Reckoned};

use crate::anchor::{AnchorForces, ROOM};
use crate::open::OpenCase;
use arrayvec::ArrayVec;

mod methods;

#[derive(Drop)]
pub struct ClosedCase {
    within: OpenCase,
    forces: ArrayVec<AnchorForces, ROOM>,
    ghost reckoned: { Reckoned (case_of within) forces.items },
}
