// A load's direction, and one bolt: its load, whether it lies before a position, and whether its loads are in range.
ghost use Rattle.std.specs.Prelude.{◌≡◌, nat_lt};
ghost use Rattle.bolts.specs.Loads.{load_of, loaded};

// The most that a bolt bears in a direction, in N.
const MOST_LOAD: u32 = 200_000;

// The direction of a load: away from the concrete, or along its face.
#[derive(Clone, Copy, Debug, PartialEq, Eq)]
pub enum Direction {
    Tension,
    Shear,
}

// A bolt at a position in tenths from the first anchor, with its loads in N.
#[derive(Clone, Copy, Debug, PartialEq, Eq)]
pub struct Bolt {
    pub position: u32,
    pub tension: u32,
    pub shear: u32,
}

impl Bolt {
    pub fn load(self, direction: Direction) -> u32
        ensures { result ≡ load_of direction self }
    {
        match direction {
            Direction::Tension => self.tension,
            Direction::Shear => self.shear,
        }
    }

    // Whether it lies before a position.
    pub(crate) fn lies_before(self, position: u32) -> bool
        ensures { result ≡ nat_lt self.position position }
    {
        self.position < position
    }

    // Whether both loads are in range, and not both 0.
    pub(crate) fn is_loaded(self) -> bool
        ensures { result ≡ loaded self }
    {
        self.tension <= MOST_LOAD && self.shear <= MOST_LOAD && (self.tension > 0 || self.shear > 0)
    }
}
