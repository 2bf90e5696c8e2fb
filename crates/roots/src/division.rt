// Division that rounds up.
ghost use Rattle.std.specs.Prelude.{◌≡◌, ◌*◌, ◌<◌, ◌≤◌, MatchOption};
ghost use Rattle.roots.specs.Division.{up};
ghost use Rattle.roots.specs.Extremes.{Least};

// A number to divide by: not 0. Not std's NonZeroU64: a caller that has proved its number above 0 writes the literal.
#[derive(Clone, Copy)]
pub struct Divisor {
    pub number: u64,
    ghost some: { 0 < number },
}

impl Divisor {
    // The number as a divisor; none for 0.
    pub fn new(number: u64) -> Option<Divisor>
        ensures { MatchOption result (number ≡ 0) (λ x. x.number ≡ number) }
    {
        if number == 0 {
            None
        } else {
            Some(Divisor { number })
        }
    }
}

// `a` over `by`, rounded up.
pub fn div_up(a: u64, by: Divisor) -> u64
    ensures is { Least (λ n. a ≤ n * by.number) result }
    ensures value { result ≡ up a by.number }
    ensures within { result ≤ a }
{
    a.div_ceil(by.number)
}
