// The powers that the roots are taken of.
ghost use Rattle.std.specs.Prelude.{◌*◌, ◌^◌, ◌<◌};
ghost use Rattle.roots.specs.Roots.{fourth};
ghost use Rattle.std.proofs.Common.{rules};
ghost use Rattle.roots.specs.Rises.{scaled_square_rises, cube_rises, fifth_rises};

use crate::bisection::Power;

// A number's square times `by`.
#[derive(Clone, Copy)]
pub(crate) struct ScaledSquare {
    pub by: u64,
    ghost some: { 0 < by },
    ghost small: { by < 2 ^ 32 },
}

impl Power for ScaledSquare {
    const BITS: u32 = 32;

    ghost BITS = { 32 };

    ghost power = { λ x n. n * n * x.by };

    ghost few = { Prim.search rules };

    ghost rises = { λ x. scaled_square_rises x.by };

    ghost starts = { Prim.search rules };

    ghost ends = { Prim.search rules };

    fn of(&self, n: u64) -> u128 {
        u128::from(n * n) * u128::from(self.by)
    }
}

// A number's cube.
#[derive(Clone, Copy)]
pub(crate) struct Cube;

impl Power for Cube {
    const BITS: u32 = 22;

    ghost BITS = { 22 };

    ghost power = { λ _ n. n * n * n };

    ghost few = { Prim.search rules };

    ghost rises = { λ _. cube_rises };

    ghost starts = { Prim.search rules };

    ghost ends = { Prim.search rules };

    fn of(&self, n: u64) -> u128 {
        u128::from(n * n) * u128::from(n)
    }
}

// A number's fifth power over 10^12, rounded up on its way.
#[derive(Clone, Copy)]
pub(crate) struct Fifth;

impl Power for Fifth {
    const BITS: u32 = 21;

    ghost BITS = { 21 };

    ghost power = { λ _ n. fourth n * n };

    ghost few = { Prim.search rules };

    ghost rises = { λ _. fifth_rises };

    ghost starts = { Prim.search rules };

    ghost ends = { Prim.search rules };

    fn of(&self, n: u64) -> u128 {
        let second = u128::from((n * n).div_ceil(100));
        let fourth = (second * second).div_ceil(100_000_000);
        fourth * u128::from(n)
    }
}
