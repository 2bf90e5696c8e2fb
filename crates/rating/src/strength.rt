// The strength factor of the pull-out.
ghost use Rattle.std.specs.Prelude.{◌≡◌, IfSome};
ghost use Rattle.certificate.specs.Layout.{section_of};
ghost use Rattle.certificate.specs.Lookup.{chosen_list, list_section};
ghost use Rattle.certificate.specs.Ranges.{Between};
ghost use Rattle.rating.specs.Strengths.{FactorIn};

use certificate::certificate::Certificate;
use certificate::lookup::{Concrete, entry_of, lookup};

// The factor of a strength class in the chosen list; none where no entry has the class.
// the lookup over both lists is the certificate's
fn factor_in(cracked: &[u8], uncracked: &[u8], concrete: Concrete, strength: u16) -> Option<u16>
    ensures { FactorIn (chosen_list cracked.now uncracked.now concrete) strength result }
{
    let tail = lookup(cracked, uncracked, concrete, strength)?;
    entry_of(tail, 0).map(|entry| entry.factor)
}

// The factor of a strength class in a certificate's list for a state of the concrete; none where no entry has the class.
pub(crate) fn strength_factor(
    certificate: &Certificate<'_>,
    concrete: Concrete,
    strength: u16,
) -> Option<u16>
    ensures value { FactorIn (section_of certificate.now.bytes.now (list_section concrete)) strength result }
    ensures lawful { IfSome result (λ f. Between 20 400 f) }
{
    let cracked = certificate.strengths(Concrete::Cracked).bytes;
    let uncracked = certificate.strengths(Concrete::Uncracked).bytes;
    factor_in(cracked, uncracked, concrete, strength)
}
