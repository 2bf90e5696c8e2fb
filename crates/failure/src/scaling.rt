// The arithmetic of reductions: distances in range, allowances, and a resistance scaled and rounded down.
ghost use Rattle.std.specs.Prelude.{◌≡◌, ◌<◌, ◌≤◌, true, false, MatchResult};
ghost use Rattle.bolts.specs.declared.refusal.Refusal.TheVariants.{Reduction};
ghost use Rattle.failure.specs.Reductions.{actual_fits, characteristic_fits, in_range, raised, straight_reduced, root_reduced};

use crate::resistance::Resistance;
use bolts::refusal::Refusal;
use roots::ratio::Ratio;

// The least distance that a reduction takes, in µm.
const LEAST_DISTANCE: u64 = 25_000;

const MOST_ACTUAL: u64 = 10_000_000;

const MOST_CHARACTERISTIC: u64 = 2_500_000;

// What a reduction adds to the allowance, and where the allowance stops, in millionths.
const ONE_REDUCTION: u32 = 50;

const MOST_ALLOWANCE: u32 = 2_000;

const MILLION: u64 = 1_000_000;

// Whether an actual distance is in range.
// two tests, this and the next, each with its definition
pub(crate) fn actual_fits(a: u64) -> bool
    ensures { result ≡ actual_fits a }
{
    (LEAST_DISTANCE..=MOST_ACTUAL).contains(&a)
}

// Whether a characteristic distance is in range.
pub(crate) fn characteristic_fits(b: u64) -> bool
    ensures { result ≡ characteristic_fits b }
{
    (LEAST_DISTANCE..=MOST_CHARACTERISTIC).contains(&b)
}

// The allowance with one reduction more.
pub(crate) fn raise(allowance: u32) -> u32
    ensures { result ≡ raised allowance }
{
    allowance.saturating_add(ONE_REDUCTION).min(MOST_ALLOWANCE)
}

// The actual distance `a` and the characteristic distance `b`, in µm.
#[derive(Clone, Copy)]
pub(crate) struct Distances {
    pub(crate) a: u64,
    pub(crate) b: u64,
    ghost least: { 25000 ≤ a },
    ghost small: { b ≤ 2500000 },
    ghost proper: { 0 < b },
}

impl Distances {
    // Refused where a distance is out of range.
    pub(crate) fn new(a: u64, b: u64) -> Result<Self, Refusal>
        ensures { MatchResult result (λ s. (in_range a b ≡ true) × (s.a ≡ a) × (s.b ≡ b)) (λ e. (in_range a b ≡ false) × (e ≡ Reduction)) }
    {
        if actual_fits(a) && characteristic_fits(b) {
            Ok(Distances { a, b })
        } else {
            Err(Refusal::Reduction)
        }
    }

    // The resistance times a over b, down, where a is less.
    pub(crate) fn by_ratio(self, below: Resistance) -> u64
        ensures { result ≡ straight_reduced self.a self.b below.mn }
    {
        if self.a < self.b {
            below.mn * self.a / self.b
        } else {
            below.mn
        }
    }

    // The resistance times the root of a over b, down, where a is less.
    pub(crate) fn by_root(self, below: Resistance) -> u64
        ensures { result ≡ root_reduced self.a self.b below.mn }
    {
        if self.a >= self.b {
            return below.mn;
        }
        // a is above 0 and below b, so the ratio is in range
        let ratio = Ratio::new(self.a, self.b).unwrap();
        below.mn * ratio.root_down() / MILLION
    }
}
