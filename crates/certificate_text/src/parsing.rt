// From a text to the numbers of a certificate.
ghost use Rattle.certificate_text.specs.Parsed.{Parses};

use crate::assembly::{factors_from, geometry_from, values_from};
use crate::fault::TextFault;
use crate::names::{EDITION_AT, FIELDS};
use crate::reader::Reader;
use crate::text::CertificateText;
use std::alloc::Global;

// The numbers of the text, or the first line that is not understood.
pub fn parse(heap: Global, text: &[u8]) -> Result<CertificateText, TextFault>
    ensures { Parses text.now result }
{
    let mut reader = Reader { rest: text };
    let numbers = reader.fixed()?;
    let cracked = reader.list(heap, "cracked")?;
    let uncracked = reader.list(heap, "uncracked")?;
    if !reader.rest.is_empty() {
        return Err(TextFault::Line(FIELDS + cracked.len() + uncracked.len() + 1));
    }
    Ok(CertificateText {
        // at most 255: its line was asked
        edition: numbers[EDITION_AT] as u8,
        geometry: geometry_from(&numbers),
        values: values_from(&numbers),
        factors: factors_from(&numbers),
        cracked,
        uncracked,
    })
}
