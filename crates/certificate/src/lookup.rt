// Finding a strength class in the certificate's lists.
ghost use Rattle.std.specs.Prelude.{◌≡◌, ◌+◌, ◌*◌, ◌^◌, ◌<◌, ◌==◌};
ghost use Rattle.certificate.specs.Content.{entry_at};
ghost use Rattle.certificate.specs.Strengths.{strength_at};
ghost use Rattle.certificate.specs.Lookup.{chosen_list, list_section, FirstAt, TailFrom, at_place};

use crate::bytes::u16_at;
use crate::fields::StrengthFactor;
use crate::layout::{ENTRY_LENGTH, Section};

// The state of the concrete, which chooses the list.
#[derive(Clone, Copy)]
pub enum Concrete {
    Cracked,
    Uncracked,
}

// The section that holds the list.
impl From<Concrete> for Section {
    ghost from_gives = { λ concrete section. section ≡ list_section concrete };

    fn from(concrete: Concrete) -> Section {
        match concrete {
            Concrete::Cracked => Section::Cracked,
            Concrete::Uncracked => Section::Uncracked,
        }
    }
}

// The list of a state. Both lists and the state are parameters apart: so a caller lends them to `lookup`.
fn chosen<'a>(cracked: &'a [u8], uncracked: &'a [u8], concrete: Concrete) -> &'a [u8]
    ensures { result.now ≡ chosen_list cracked.now uncracked.now concrete }
{
    match concrete {
        Concrete::Cracked => cracked,
        Concrete::Uncracked => uncracked,
    }
}

// Whether the k-th entry has this strength.
fn has_strength(list: &[u8], k: usize, strength: u16) -> bool
    requires { 4 * k + 1 < 2 ^ 64 }
    ensures { result ≡ (strength_at list.now k == strength) }
{
    u16_at(list, ENTRY_LENGTH * k) == strength
}

// The first entry with this strength, from the front. Any list: nothing here says that it rises.
fn index_of(list: &[u8], strength: u16) -> Option<usize>
    ensures { FirstAt list.now strength result }
{
    // by number: with `position` over the chunks it stayed open that chunk k is entry k
    (0..list.len() / ENTRY_LENGTH).find(|&k| has_strength(list, k, strength))
}

// The part of the chosen list that begins with the wanted strength class, or none where no entry has it.
pub fn lookup<'a>(
    cracked: &'a [u8],
    uncracked: &'a [u8],
    concrete: Concrete,
    strength: u16,
) -> Option<&'a [u8]>
    ensures { TailFrom (chosen_list cracked.now uncracked.now concrete) strength result }
{
    let list = chosen(cracked, uncracked, concrete);
    let k = index_of(list, strength)?;
    Some(&list[ENTRY_LENGTH * k..])
}

// The entry that these bytes begin with.
pub fn entry_in(bytes: &[u8]) -> StrengthFactor
    ensures { result ≡ entry_at bytes.now 0 }
{
    StrengthFactor {
        strength: u16_at(bytes, 0),
        factor: u16_at(bytes, 2),
    }
}

// The k-th entry of a list, from 0; none past its end.
pub fn entry_of(list: &[u8], k: usize) -> Option<StrengthFactor>
    ensures { result ≡ at_place list.now k }
{
    // by its place: `nth` of the chunks would walk to it
    if k >= list.len() / ENTRY_LENGTH {
        return None;
    }
    Some(entry_in(&list[ENTRY_LENGTH * k..]))
}
