// The lists of strength classes, each with the factor on the pull-out value.
ghost use Rattle.std.specs.Prelude.{◌≡◌, ◌+◌, ◌*◌, ◌/◌, ◌<◌, ◌≤◌, length};
ghost use Rattle.certificate.specs.Asked.{first_no};
ghost use Rattle.certificate.specs.Strengths.{strength_at, factor_at, entry_asked, list_asked};

use crate::bytes::u16_at;
use crate::fault::{CertificateFault, Question};
use crate::layout::ENTRY_LENGTH;
use crate::part::Part;

const LEAST_STRENGTH: u16 = 12;

const MOST_STRENGTH: u16 = 75;

const LEAST_FACTOR: u16 = 20;

const MOST_FACTOR: u16 = 400;

fn ask_entry(list: Part<'_>, k: usize) -> Result<(), CertificateFault>
    requires { k < 16384 }
    ensures { result ≡ first_no (entry_asked list.entry.place list.entry.bytes.now k) }
{
    let at = ENTRY_LENGTH * k;
    let strength = u16_at(list.bytes, at);
    let factor = u16_at(list.bytes, at + 2);
    if !(LEAST_STRENGTH..=MOST_STRENGTH).contains(&strength) {
        return Err(Question::Strengths.at(list.place + at));
    }
    if k > 0 && strength <= u16_at(list.bytes, at - ENTRY_LENGTH) {
        return Err(Question::Strengths.at(list.place + at));
    }
    if !(LEAST_FACTOR..=MOST_FACTOR).contains(&factor) {
        return Err(Question::Strengths.at(list.place + at + 2));
    }
    Ok(())
}

// Whether every strength and factor is in its range, and the strengths rise strictly.
pub(crate) fn ask_list(list: Part<'_>) -> Result<(), CertificateFault>
    ensures { result ≡ first_no (list_asked list.entry.place list.entry.bytes.now) }
{
    // by number: an entry is asked beside the one before it, and its fault names its place
    for k in 0..list.bytes.len() / ENTRY_LENGTH {
        ask_entry(list, k)?;
    }
    Ok(())
}
