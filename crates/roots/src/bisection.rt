// The greatest number whose power is at most a number, found by halving.
ghost use Rattle.std.specs.Prelude.{◌≡◌, ℕ, ◌^◌, ◌<◌, ◌≤◌, nat_le};
ghost use Rattle.roots.specs.Extremes.{Greatest, greatest_of};

// A power of numbers, scaled or rounded on its way: it starts at 0, never falls, and grows past every u64.
pub(crate) trait Power {
    // The power of two to this many is past every u64.
    const BITS: u32;

    ghost BITS: { ℕ };

    ghost power: { Self → ℕ → ℕ };

    // The power of a number.
    fn of(&self, n: u64) -> u128
        requires { n < 2 ^ BITS }
        ensures { result ≡ power self.now n };

    ghost few: { BITS < 64 };

    ghost rises: { (x : Self) (m n : ℕ) → m ≤ n → power x m ≤ power x n };

    ghost starts: { (x : Self) → power x 0 ≡ 0 };

    ghost ends: { (x : Self) → 2 ^ 64 ≤ power x (2 ^ BITS) };
}

// The greatest number whose power is at most `x`.
pub(crate) fn root<P: Power>(power: &P, x: u64) -> u64
    ensures is { Greatest (λ n. P.power power.now n ≤ x) result }
    ensures value { result ≡ greatest_of P.BITS (λ n. nat_le (P.power power.now n) x) }
    ensures within { result < 2 ^ P.BITS }
{
    let mut low: u64 = 0;
    let mut high: u64 = 1 << P::BITS;
    // by hand: partition_point takes a slice, not numbers
    while high - low > 1 {
        let mid = low + (high - low) / 2;
        if power.of(mid) <= u128::from(x) {
            low = mid;
        } else {
            high = mid;
        }
    }
    low
}
