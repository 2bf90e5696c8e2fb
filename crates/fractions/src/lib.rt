// Fractions of whole numbers, for contracts: what a fraction is, when one is at most another, and what encloses a
// root. The library has no fractions at run time; it promises the laws that contracts over fractions rest on.
#![tactic(auto)]

ghost use Rattle.fractions.specs.Laws.{Ordered};
ghost use Rattle.std.specs.Prelude.{◌≡◌};

// The laws of fractions: an order, sums and products that rise with it, and brackets whose ends stand in order.
// It returns how many laws there are.
pub fn fractions_are_ordered() -> u8
    ensures laws { Ordered }
    ensures count { result ≡ 5 }
{
    count_of_laws()
}

// The number of fields of `Ordered`.
fn count_of_laws() -> u8
    ensures { result ≡ 5 }
{
    5
}
