// The bending moment at a bolt, of the loads in its span. Lengths in µm, loads in mN, moments in thousandths of a
// newton-metre.
ghost use Rattle.std.specs.Prelude.{◌≡◌, ℕ, ◌%◌, ◌<◌, ◌≤◌, length, sum_by};
ghost use Rattle.bolts.specs.Bolts.{bolt_at};
ghost use Rattle.forces.specs.Cases.{um};
ghost use Rattle.loadcase.specs.Closed.{closed_case};
ghost use Rattle.failure.specs.Meanings.{at_place};
ghost use Rattle.steel_modes.specs.Ranges.{bending_well};
ghost use Rattle.steel_modes.specs.Spans.{offset, part_up, moment_at};

use bolts::bolt::Bolt;
use forces::units::{mn, um};
use loadcase::closed::ClosedCase;
use roots::division::{Divisor, div_up};

// The least and the greatest resistance, in newton-metres.
const LEAST_BENDING: u32 = 100;

const MOST_BENDING: u32 = 10_000;

// mN times µm in a thousandth of a newton-metre.
const MILLION: u64 = 1_000_000;

// Whether a resistance to bending in newton-metres is in range.
// a function for each range: each has its own definition
pub(crate) fn is_bending_well(value: u32) -> bool
    ensures { result ≡ bending_well value }
{
    (LEAST_BENDING..=MOST_BENDING).contains(&value)
}

// The moment at a bolt, of what all bolts add to it; none past the last.
pub(crate) fn moment(case: &ClosedCase, place: usize) -> Option<u64>
    ensures { result ≡ at_place (length (closed_case case.now).bolts) (λ i. moment_at (closed_case case.now) i) place }
{
    let here = case.bolts().get(place)?;
    let spans = Spans {
        spacing: case.opening().spacing,
    };
    Some(spans.moment(case.bolts(), *here))
}

// The spans of the channel between its anchors, whose spacing is in tenths.
#[derive(Clone, Copy)]
struct Spans {
    spacing: u32,
    ghost wide: { 500 ≤ spacing },
    ghost narrow: { spacing ≤ 2500 },
}

impl Spans {
    // The sum of what the bolts add to the moment at one of them.
    fn moment(self, bolts: &[Bolt], here: Bolt) -> u64
        requires few { length bolts.now ≤ 16 }
        requires loaded { (k : ℕ) → k < length bolts.now → (bolt_at bolts.now k).tension ≤ 200000 }
        ensures { result ≡ sum_by (part_up self.spacing here) bolts.now }
    {
        bolts.iter().map(|other| self.part(here, *other)).sum()
    }

    // What one bolt adds to the moment at another; nothing from another span.
    fn part(self, here: Bolt, other: Bolt) -> u64
        requires { other.tension ≤ 200000 }
        ensures { result ≡ part_up self.spacing here other }
    {
        if here.position / self.spacing != other.position / self.spacing {
            return 0;
        }
        let x = self.offset(here);
        let y = self.offset(other);
        let span = self.length();
        let above = mn(other.tension) * x.min(y) * (span - x.max(y));
        let below = Divisor {
            number: span * MILLION,
        };
        div_up(above, below)
    }

    // How long a span is.
    fn length(self) -> u64
        ensures { result ≡ um self.spacing }
    {
        um(self.spacing)
    }

    // How far a bolt lies from the anchor on its left.
    fn offset(self, bolt: Bolt) -> u64
        ensures value { result ≡ offset self.spacing bolt }
        ensures inside { result < um self.spacing }
    {
        um(bolt.position % self.spacing)
    }
}
