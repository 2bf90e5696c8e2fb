// The influence length of a load on a channel: how far along the channel a load reaches the anchors. It is proved to
// be at most the exact length, and at most 5 micrometres below it.
#![tactic(auto)]

ghost use Rattle.std.specs.Prelude.{◌≡◌, ◌+◌, ◌*◌, ◌/◌, ◌^◌, ◌≤◌, MatchOption};
ghost use Rattle.influence.specs.Exact.{Ends, NotAbove, NotBelow};
ghost use Rattle.influence.specs.Lengths.{InRange, StepsTo, influence_length, spacing_root_of, twentieth_root_of};

use roots::whole::{fifth_root, square_root};

// The moments of inertia that channels have, in mm^4.
const LEAST_INERTIA: u32 = 4_000;

const MOST_INERTIA: u32 = 200_000;

// The spacings that their anchors have, in tenths of a millimetre.
const LEAST_SPACING: u32 = 500;

const MOST_SPACING: u32 = 2_500;

// The scales at which the roots carry their digits.
const MILLION: u64 = 1_000_000;

const TEN_MILLION: u64 = 10_000_000;

const BILLION: u64 = 1_000_000_000;

const MILLION_SQUARED: u64 = 1_000_000_000_000;

// A channel: its moment of inertia in mm^4, and the spacing of its anchors in tenths of a millimetre.
#[derive(Clone, Copy)]
pub struct Channel {
    pub inertia: u32,
    pub spacing: u32,
    ghost in_range: { InRange inertia spacing },
}

impl Channel {
    // The channel, where its numbers are in range; none elsewhere.
    pub fn new(inertia: u32, spacing: u32) -> Option<Channel>
        ensures { MatchOption result (InRange inertia spacing → ⊥) (λ x. (x.inertia ≡ inertia) × (x.spacing ≡ spacing)) }
    {
        if (LEAST_INERTIA..=MOST_INERTIA).contains(&inertia)
            && (LEAST_SPACING..=MOST_SPACING).contains(&spacing)
        {
            Some(Channel { inertia, spacing })
        } else {
            None
        }
    }

    // The influence length in micrometres, rounded down at each step. There are ends that enclose the exact length; at
    // any of them the result is not above it, and the result and 5 are not below it.
    pub fn influence_length(&self) -> u64
        ensures value { result ≡ influence_length self.now.inertia self.now.spacing }
        ensures steps { StepsTo self.now.inertia self.now.spacing result }
        ensures ends { Ends self.now.inertia self.now.spacing }
        ensures low { NotAbove self.now.inertia self.now.spacing result }
        ensures high { NotBelow self.now.inertia self.now.spacing (result + 5) }
        ensures least { 130000 ≤ result }
        ensures wider { 100 * self.now.spacing ≤ result }
        ensures most { result ≤ 1000000 }
    {
        self.rounded_length()
    }

    // The steps of the definition: each root is the greatest number that fits.
    fn rounded_length(&self) -> u64
        ensures { result ≡ 13 * twentieth_root_of self.now.inertia * spacing_root_of self.now.spacing / 10 ^ 7 }
    {
        let half_root = square_root(u64::from(self.inertia) * MILLION_SQUARED);
        let quarter_root = square_root(half_root * MILLION);
        let twentieth_root = fifth_root(quarter_root * TEN_MILLION);
        let spacing_root = square_root(u64::from(self.spacing) * BILLION);
        13 * twentieth_root * spacing_root / TEN_MILLION
    }
}
