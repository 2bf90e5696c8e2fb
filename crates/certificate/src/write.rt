// Writing a certificate into a lent buffer.
ghost use Rattle.std.specs.Prelude.{◌≡◌, ◌+◌, ◌*◌, ◌<◌, ◌≤◌, length};
ghost use Rattle.certificate.specs.Drafts.{drafted};
ghost use Rattle.certificate.specs.Writing.{content, pairs, written, Wrote, Fitting};

use crate::asking::ask_certificate;
use crate::draft::{Draft, put};
use crate::fault::{CertificateFault, Question};
use crate::fields::Fields;
use crate::layout::{
    ENTRY_LENGTH, GEOMETRY_LENGTH, HEADER_LENGTH, MOST_BYTES, RESISTANCE_LENGTH, SECTIONS,
};
use crate::numbers::{factors_list, geometry_shorts, values_list};

// The head's length as a number of a pair; `as`: From is not for constants.
const HEADER_SIZE: u16 = HEADER_LENGTH as u16;

const RESISTANCE_PLACE: u16 = HEADER_SIZE + GEOMETRY_LENGTH;

const CRACKED_PLACE: u16 = RESISTANCE_PLACE + RESISTANCE_LENGTH;

// How many entries the longest certificate has room for, in both lists together.
// `as`: From is not for constants.
const MOST_ENTRIES: usize = (MOST_BYTES - CRACKED_PLACE as usize) / ENTRY_LENGTH;

// The pairs of a certificate whose lists have so many entries.
fn pairs(cracked: usize, uncracked: usize) -> [u16; 8]
    requires { cracked + uncracked ≤ 998 }
    ensures { result ≡ pairs cracked uncracked }
{
    // at most 3,992 bytes: each length fits
    let cracked = u16::try_from(ENTRY_LENGTH * cracked).unwrap();
    let uncracked = u16::try_from(ENTRY_LENGTH * uncracked).unwrap();
    [
        HEADER_SIZE,
        GEOMETRY_LENGTH,
        RESISTANCE_PLACE,
        RESISTANCE_LENGTH,
        CRACKED_PLACE,
        cracked,
        CRACKED_PLACE + cracked,
        uncracked,
    ]
}

// The bytes of a certificate with these fields.
fn draft_of(fields: &Fields<'_>) -> Draft
    requires { length fields.now.cracked.now + length fields.now.uncracked.now ≤ 998 }
    ensures after { drafted result ≡ written (content fields.now) }
    ensures fits { Fitting (content fields.now) }
{
    let mut draft = Draft::new();
    put(&mut draft, &[fields.edition, SECTIONS]);
    put(
        &mut draft,
        &pairs(fields.cracked.len(), fields.uncracked.len()),
    );
    put(&mut draft, &geometry_shorts(&fields.geometry));
    put(&mut draft, &[fields.geometry.moment_of_inertia]);
    put(&mut draft, &values_list(&fields.values));
    put(&mut draft, &factors_list(&fields.factors));
    put(&mut draft, fields.cracked);
    put(&mut draft, fields.uncracked);
    draft
}

// Writes a certificate with these fields to the front of the buffer, and gives its length. Refused by the first
// question that its bytes would fail, or where the buffer is too short; the buffer is then as it was.
pub fn write(fields: &Fields<'_>, buffer: &mut [u8]) -> Result<usize, CertificateFault>
    ensures { Wrote (content fields.now) buffer.old buffer.new result }
{
    let entries = fields.cracked.len().saturating_add(fields.uncracked.len());
    if entries > MOST_ENTRIES {
        return Err(Question::Header.at(0));
    }
    let draft = draft_of(fields);
    let bytes = draft.as_slice();
    ask_certificate(bytes)?;
    let count = bytes.len();
    if buffer.len() < count {
        return Err(Question::Buffer.at(0));
    }
    buffer[..count].copy_from_slice(bytes);
    Ok(count)
}
