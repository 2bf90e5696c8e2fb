// Roots of whole numbers, rounded down.
ghost use Rattle.std.specs.Prelude.{◌≡◌, ◌*◌, ◌^◌, ◌<◌, ◌≤◌};
ghost use Rattle.roots.specs.Extremes.{Greatest};
ghost use Rattle.roots.specs.Roots.{cube_root_of, fifth_root_of, fourth, square_root_of};

use crate::bisection::root;
use crate::powers::{Cube, Fifth, ScaledSquare};

// The greatest number whose square is at most `x`.
pub fn square_root(x: u64) -> u64
    ensures is { Greatest (λ n. n * n ≤ x) result }
    ensures value { result ≡ square_root_of x }
    ensures within { result < 2 ^ 32 }
{
    root(&ScaledSquare { by: 1 }, x)
}

// The greatest number whose cube is at most `x`.
pub fn cube_root(x: u64) -> u64
    ensures is { Greatest (λ n. n * n * n ≤ x) result }
    ensures value { result ≡ cube_root_of x }
    ensures within { result < 2 ^ 22 }
{
    root(&Cube, x)
}

// The greatest number whose fifth power over 10^12, rounded up on its way, is at most `x`.
pub fn fifth_root(x: u64) -> u64
    ensures is { Greatest (λ n. fourth n * n ≤ x) result }
    ensures value { result ≡ fifth_root_of x }
    ensures within { result < 2 ^ 21 }
{
    root(&Fifth, x)
}
