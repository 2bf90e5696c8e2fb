// What a case holds of each anchor.
ghost use Rattle.std.specs.Prelude.{◌≡◌};
ghost use Rattle.loadcase.specs.Reckoned.{force_in};

use bolts::bolt::Direction;

// The most anchors that a case has.
pub(crate) const MOST_ANCHORS: u32 = 12;

// The room for the forces on them.
pub(crate) const ROOM: usize = MOST_ANCHORS as usize;

// The forces on an anchor, in mN.
#[derive(Clone, Copy, Default)]
pub(crate) struct AnchorForces {
    pub tension: u64,
    pub shear: u64,
}

impl AnchorForces {
    // The force in a direction.
    // two fields as in Bolt: a shared pair would be longer
    pub(crate) fn in_direction(self, direction: Direction) -> u64
        ensures { result ≡ force_in direction self }
    {
        match direction {
            Direction::Tension => self.tension,
            Direction::Shear => self.shear,
        }
    }
}
