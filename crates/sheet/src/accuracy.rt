// Whether allowances are small enough for a rating.
ghost use Rattle.std.specs.Prelude.{◌≡◌, nat_le, slice_index};
ghost use Rattle.verdict.specs.Lines.{line_count};
ghost use Rattle.verdict.specs.Checks.{all_below};

use verdict::lines::LINES;

// The largest allowance, in millionths, of a line that is shown or rated.
pub(crate) const MOST_ALLOWANCE: u32 = 600;

// Whether every allowance is at most 600.
pub(crate) fn are_accurate(allowances: &[u32; LINES]) -> bool
    ensures { result ≡ all_below line_count (λ k. nat_le (slice_index allowances.now k) 600) }
{
    allowances
        .iter()
        .all(|allowance| *allowance <= MOST_ALLOWANCE)
}
