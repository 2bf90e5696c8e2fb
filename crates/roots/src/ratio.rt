// The square root of a ratio that is at most 1, in millionths.
ghost use Rattle.std.specs.Prelude.{◌≡◌, ◌-◌, ◌*◌, ◌^◌, ◌<◌, ◌≤◌, MatchOption};
ghost use Rattle.roots.specs.Extremes.{Greatest, Least};
ghost use Rattle.roots.specs.Roots.{root_down_of, root_up_of};

use crate::bisection::root;
use crate::powers::ScaledSquare;

// The square of a million: a root in millionths, squared, is of this many parts.
const MILLION_SQUARED: u64 = 1_000_000_000_000;

// The most that a ratio is taken to.
const MOST_WHOLE: u64 = 2_500_000;

// The ratio of `a` to `b`: above 0, at most 1, and `b` at most 2,500,000.
#[derive(Clone, Copy)]
pub struct Ratio {
    pub a: u64,
    pub b: u64,
    ghost some: { 0 < a },
    ghost part: { a ≤ b },
    ghost small: { b ≤ 2500000 },
}

impl Ratio {
    // The ratio of `a` to `b`, where it is in the range; none elsewhere.
    pub fn new(a: u64, b: u64) -> Option<Ratio>
        ensures { MatchOption result (0 < a → a ≤ b → b ≤ 2500000 → ⊥) (λ x. (x.a ≡ a) × (x.b ≡ b)) }
    {
        if (1..=b).contains(&a) && b <= MOST_WHOLE {
            Some(Ratio { a, b })
        } else {
            None
        }
    }

    // Its square root in millionths, rounded down.
    pub fn root_down(&self) -> u64
        ensures is { Greatest (λ n. n * n * self.now.b ≤ self.now.a * 10 ^ 12) result }
        ensures value { result ≡ root_down_of self.now.a self.now.b }
        ensures within { result ≤ 10 ^ 6 }
    {
        self.last_at_most()
    }

    // Its square root in millionths, rounded up.
    pub fn root_up(&self) -> u64
        ensures is { Least (λ n. self.now.a * 10 ^ 12 ≤ n * n * self.now.b) result }
        ensures value { result ≡ root_up_of self.now.a self.now.b }
        ensures within { result ≤ 10 ^ 6 }
    {
        self.last_below() + 1
    }

    // The greatest number whose square times `b` is at most `a` times 10^12.
    fn last_at_most(&self) -> u64
        ensures is { Greatest (λ n. n * n * self.now.b ≤ self.now.a * 10 ^ 12) result }
        ensures value { result ≡ root_down_of self.now.a self.now.b }
    {
        root(&ScaledSquare { by: self.b }, self.a * MILLION_SQUARED)
    }

    // The greatest number whose square times `b` is below `a` times 10^12.
    fn last_below(&self) -> u64
        ensures is { Greatest (λ n. n * n * self.now.b ≤ self.now.a * 10 ^ 12 - 1) result }
        ensures within { result < 2 ^ 32 }
    {
        root(&ScaledSquare { by: self.b }, self.a * MILLION_SQUARED - 1)
    }
}
