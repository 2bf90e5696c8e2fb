// The resistance of a mode at a place, before a reduction.
ghost use Rattle.std.specs.Prelude.{◌≤◌};

// In mN, at most 2,000,000 N.
#[derive(Clone, Copy)]
pub struct Resistance {
    pub mn: u64,
    ghost fits: { mn ≤ 2000000000 },
}
