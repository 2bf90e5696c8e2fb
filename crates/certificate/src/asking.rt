// All questions of a certificate, in their order.
ghost use Rattle.std.specs.Prelude.{◌≡◌};
ghost use Rattle.certificate.specs.Asked.{first_no};
ghost use Rattle.certificate.specs.Reading.{numbers_asked, strengths_asked, refusal};

use crate::fault::CertificateFault;
use crate::layout::{Section, ask_header, ask_layout, part_of};
use crate::rules::{ask_fields, ask_ratios};
use crate::strengths::ask_list;
use crate::tables::{GEOMETRY, RESISTANCE};

// Whether every number of the first two sections is in its range.
fn ask_numbers(bytes: &[u8]) -> Result<(), CertificateFault>
    ensures { result ≡ first_no (numbers_asked bytes.now) }
{
    let geometry = part_of(bytes, Section::Geometry);
    ask_fields(geometry, &GEOMETRY)?;
    ask_fields(part_of(bytes, Section::Resistance), &RESISTANCE)?;
    ask_ratios(geometry)
}

// Whether both lists are in range and rising.
fn ask_strengths(bytes: &[u8]) -> Result<(), CertificateFault>
    ensures { result ≡ first_no (strengths_asked bytes.now) }
{
    ask_list(part_of(bytes, Section::Cracked))?;
    ask_list(part_of(bytes, Section::Uncracked))
}

pub(crate) fn ask_certificate(bytes: &[u8]) -> Result<(), CertificateFault>
    ensures { result ≡ refusal bytes.now }
{
    ask_header(bytes)?;
    ask_layout(bytes)?;
    ask_numbers(bytes)?;
    ask_strengths(bytes)
}
