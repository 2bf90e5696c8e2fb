// The figures of a mode in a closed case, through the mode's own calls.
use crate::mode::{Corners, Mode, Steel};
use bolts::bolt::Direction;
use bolts::refusal::Refusal;
use concrete_modes::cone::Cone;
use concrete_modes::edge::first::FirstEdge;
use concrete_modes::edge::second::SecondEdge;
use failure::corner::CornerReduction;
use failure::mode::FailureMode;
use failure::root::RootReduction;
use failure::straight::StraightReduction;
use loadcase::closed::ClosedCase;
use std::error::Error;
use std::fmt;
use steel_modes::anchor::AnchorSteel;
use steel_modes::bolt::BoltSteel;
use steel_modes::design::PartialFactor;
use steel_modes::flexure::Flexure;
use steel_modes::lip::Lip;
use steel_modes::pullout::PullOut;

// Effect and resistance of a mode at a place.
#[derive(Clone, Copy)]
pub struct Figures {
    effect: u64,
    resistance: u64,
}

impl fmt::Display for Figures {
    fn fmt<W: fmt::Write>(&self, f: &mut fmt::Formatter<W>) -> fmt::Result {
        let effect = self.effect;
        let resistance = self.resistance;
        write!(f, "{effect} {resistance}")
    }
}

// Why there are none.
#[derive(Clone, Copy, Debug)]
pub enum NoFigures {
    NoCase,
    NoPlace,
    OutOfRange,
    Refused(Refusal),
}

impl From<Refusal> for NoFigures {
    fn from(refusal: Refusal) -> NoFigures {
        NoFigures::Refused(refusal)
    }
}

impl fmt::Display for NoFigures {
    fn fmt<W: fmt::Write>(&self, f: &mut fmt::Formatter<W>) -> fmt::Result {
        match self {
            NoFigures::NoCase => write!(f, "no case"),
            NoFigures::NoPlace => write!(f, "no place"),
            NoFigures::OutOfRange => write!(f, "out of range"),
            NoFigures::Refused(refusal) => {
                let number = refusal.number();
                write!(f, "refused {number}")
            }
        }
    }
}

impl Error for NoFigures {}

// A place of a case, from 0.
#[derive(Clone, Copy)]
pub struct Place<'a> {
    pub case: &'a ClosedCase,
    pub index: usize,
}

impl Place<'_> {
    fn figures<M: FailureMode>(self, mode: &M) -> Result<Figures, NoFigures> {
        let effect = mode.effect(self.case, self.index);
        let resistance = mode.resistance(self.case, self.index);
        Ok(Figures {
            effect: effect.ok_or(NoFigures::NoPlace)?,
            resistance: resistance.ok_or(NoFigures::NoPlace)?,
        })
    }
}

impl Mode {
    pub(crate) fn figures(self, place: Place<'_>) -> Result<Figures, NoFigures> {
        match self {
            Mode::Anchor(direction, steel) => place.figures(&steel.anchor(direction)?),
            Mode::Bolt(direction, steel) => place.figures(&steel.bolt(direction)?),
            Mode::Lip(direction, steel, spacing) => place.figures(&steel.lip(direction, spacing)?),
            Mode::PullOut(steel, strength) => place.figures(&steel.pull_out(strength)?),
            Mode::Flexure(steel) => place.figures(&steel.flexure()?),
            Mode::Cone(direction, basis, factor) => {
                let cone = Cone::new(direction, basis, partial(factor)?);
                place.figures(&cone.ok_or(NoFigures::OutOfRange)?)
            }
            Mode::FirstEdge(basis, factor) => {
                let edge = FirstEdge::new(basis, partial(factor)?);
                place.figures(&edge.ok_or(NoFigures::OutOfRange)?)
            }
            Mode::SecondEdge(basis, factor) => {
                let edge = SecondEdge::new(basis, partial(factor)?);
                place.figures(&edge.ok_or(NoFigures::OutOfRange)?)
            }
            Mode::Root(steel, a, b) => {
                let anchor = steel.anchor(Direction::Tension)?;
                place.figures(&RootReduction::new(anchor, u64::from(a), u64::from(b))?)
            }
            Mode::Straight(steel, a, b) => {
                let anchor = steel.anchor(Direction::Tension)?;
                place.figures(&StraightReduction::new(anchor, u64::from(a), u64::from(b))?)
            }
            Mode::AnchorCorner(steel, corners) => {
                place.figures(&corners.near(steel.anchor(Direction::Tension)?)?)
            }
            Mode::BoltCorner(steel, corners) => {
                place.figures(&corners.near(steel.bolt(Direction::Tension)?)?)
            }
        }
    }
}

impl Steel {
    fn anchor(self, direction: Direction) -> Result<AnchorSteel, NoFigures> {
        AnchorSteel::new(direction, self.value, partial(self.factor)?).ok_or(NoFigures::OutOfRange)
    }

    fn bolt(self, direction: Direction) -> Result<BoltSteel, NoFigures> {
        BoltSteel::new(direction, self.value, partial(self.factor)?).ok_or(NoFigures::OutOfRange)
    }

    fn lip(self, direction: Direction, spacing: u32) -> Result<Lip, NoFigures> {
        let factor = partial(self.factor)?;
        Lip::new(direction, self.value, factor, spacing).ok_or(NoFigures::OutOfRange)
    }

    fn pull_out(self, strength: u32) -> Result<PullOut, NoFigures> {
        PullOut::new(self.value, strength, partial(self.factor)?).ok_or(NoFigures::OutOfRange)
    }

    fn flexure(self) -> Result<Flexure, NoFigures> {
        Flexure::new(self.value, partial(self.factor)?).ok_or(NoFigures::OutOfRange)
    }
}

impl Corners {
    // A mode near them.
    fn near<M: FailureMode + Drop>(self, mode: M) -> Result<CornerReduction<M>, Refusal> {
        let first = u64::from(self.first);
        let last = u64::from(self.last);
        CornerReduction::new(mode, first, last, u64::from(self.b))
    }
}

// The partial factor of this many hundredths.
fn partial(hundredths: u32) -> Result<PartialFactor, NoFigures> {
    PartialFactor::new(hundredths).ok_or(NoFigures::OutOfRange)
}
