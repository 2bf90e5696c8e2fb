// A failure mode with its numbers, as a line names it.
use bolts::bolt::Direction;
use concrete_modes::cone::ConeBasis;
use concrete_modes::edge::EdgeBasis;

// The multiple of the cone itself, in tenths.
const CONE_MULTIPLE: u32 = 10;

// A characteristic value and its partial factor.
#[derive(Clone, Copy)]
pub struct Steel {
    pub value: u32,
    pub factor: u32,
}

// The corners from the first and the last anchor, and the characteristic distance, in µm.
#[derive(Clone, Copy)]
pub struct Corners {
    pub first: u32,
    pub last: u32,
    pub b: u32,
}

#[derive(Clone, Copy)]
pub enum Mode {
    Anchor(Direction, Steel),
    Bolt(Direction, Steel),
    // With the spacing below which two bolts share the lips.
    Lip(Direction, Steel, u32),
    // With the factor for the strength of the concrete.
    PullOut(Steel, u32),
    Flexure(Steel),
    // With the partial factor of concrete.
    Cone(Direction, ConeBasis, u32),
    FirstEdge(EdgeBasis, u32),
    SecondEdge(EdgeBasis, u32),
    // The steel of an anchor in tension, reduced by an actual over a characteristic distance in µm.
    Root(Steel, u32, u32),
    Straight(Steel, u32, u32),
    // The steel of an anchor, or of a bolt, in tension, near the corners.
    AnchorCorner(Steel, Corners),
    BoltCorner(Steel, Corners),
}

impl Mode {
    // The mode that a word and its numbers name; none where there is no such mode.
    pub(crate) fn parse(word: &str, numbers: &[u32]) -> Option<Mode> {
        let &[value, factor, ref rest @ ..] = numbers else {
            return None;
        };
        steel_mode(word, Steel { value, factor }, rest).or_else(|| concrete_mode(word, numbers))
    }
}

fn steel_mode(word: &str, steel: Steel, rest: &[u32]) -> Option<Mode> {
    match (word, rest) {
        ("anchor_tension", []) => Some(Mode::Anchor(Direction::Tension, steel)),
        ("anchor_shear", []) => Some(Mode::Anchor(Direction::Shear, steel)),
        ("bolt_tension", []) => Some(Mode::Bolt(Direction::Tension, steel)),
        ("bolt_shear", []) => Some(Mode::Bolt(Direction::Shear, steel)),
        ("lip_tension", &[spacing]) => Some(Mode::Lip(Direction::Tension, steel, spacing)),
        ("lip_shear", &[spacing]) => Some(Mode::Lip(Direction::Shear, steel, spacing)),
        ("pull_out", &[strength]) => Some(Mode::PullOut(steel, strength)),
        ("flexure", []) => Some(Mode::Flexure(steel)),
        ("root", &[a, b]) => Some(Mode::Root(steel, a, b)),
        ("straight", &[a, b]) => Some(Mode::Straight(steel, a, b)),
        ("anchor_corner", &[first, last, b]) => {
            Some(Mode::AnchorCorner(steel, Corners { first, last, b }))
        }
        ("bolt_corner", &[first, last, b]) => {
            Some(Mode::BoltCorner(steel, Corners { first, last, b }))
        }
        _ => None,
    }
}

fn concrete_mode(word: &str, numbers: &[u32]) -> Option<Mode> {
    match (word, numbers) {
        ("cone", &[k, strength, depth, factor]) => {
            let basis = ConeBasis {
                k,
                strength,
                depth,
                multiple: CONE_MULTIPLE,
            };
            Some(Mode::Cone(Direction::Tension, basis, factor))
        }
        ("pry_out", &[k, strength, depth, multiple, factor]) => {
            let basis = ConeBasis {
                k,
                strength,
                depth,
                multiple,
            };
            Some(Mode::Cone(Direction::Shear, basis, factor))
        }
        (_, &[k, strength, distance, width, p, factor]) => {
            let basis = EdgeBasis {
                k,
                strength,
                distance,
                width,
                p,
            };
            edge_mode(word, basis, factor)
        }
        _ => None,
    }
}

fn edge_mode(word: &str, basis: EdgeBasis, factor: u32) -> Option<Mode> {
    match word {
        "first_edge" => Some(Mode::FirstEdge(basis, factor)),
        "second_edge" => Some(Mode::SecondEdge(basis, factor)),
        _ => None,
    }
}
