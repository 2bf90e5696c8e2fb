// From a certificate to its text.
ghost use Rattle.std.specs.Prelude.{◌≡◌, ◌++◌, IfOk, OnOk, Ok, string_bytes};
ghost use Rattle.certificate.specs.Content.{content_of, entries};
ghost use Rattle.certificate_text.specs.Names.{fields};
ghost use Rattle.certificate_text.specs.Parsed.{parsed};
ghost use Rattle.certificate_text.specs.Printed.{entry_text, fields_text, list_text, text_of, rated_content, Bytes};

use crate::names::{FIELDS, fields};
use crate::numbers::numbers_from;
use certificate::certificate::Certificate;
use certificate::fields::StrengthFactor;
use certificate::layout::{ENTRY_LENGTH, Section};
use certificate::lookup::entry_in;
use std::alloc::{AllocError, Global};
use std::fmt::Write;

// The fixed lines.
fn write_fields(out: &mut String, numbers: &[u32; FIELDS]) -> Result<(), AllocError>
    ensures { OnOk result (string_bytes out.new ≡ string_bytes out.old ++ fields_text fields numbers.now) }
{
    for (field, number) in fields().iter().zip(numbers) {
        let name = field.name;
        writeln!(out, "{name} {number}")?;
    }
    Ok(())
}

// The line of an entry.
fn write_entry(out: &mut String, name: &str, entry: StrengthFactor) -> Result<(), AllocError>
    ensures { OnOk result (string_bytes out.new ≡ string_bytes out.old ++ entry_text name.now entry) }
{
    let StrengthFactor { strength, factor } = entry;
    writeln!(out, "{name} {strength} {factor}")
}

// The lines of a list.
fn write_list(out: &mut String, name: &str, list: &[u8]) -> Result<(), AllocError>
    ensures text { OnOk result (string_bytes out.new ≡ string_bytes out.old ++ list_text name.now (entries list.now)) }
    ensures bytes { Bytes list.now }
{
    for chunk in list.chunks_exact(ENTRY_LENGTH) {
        write_entry(out, name, entry_in(chunk))?;
    }
    Ok(())
}

// The text of a certificate that was read.
pub fn print(heap: Global, certificate: &Certificate<'_>) -> Result<String, AllocError>
    ensures text { IfOk result (λ s. string_bytes s ≡ text_of (rated_content certificate.now.bytes.now)) }
    ensures lawful { IfOk result (λ s. string_bytes s ≡ text_of (content_of certificate.now.bytes.now)) }
    ensures back { IfOk result (λ s. parsed (string_bytes s) ≡ Ok (content_of certificate.now.bytes.now)) }
{
    let numbers = numbers_from(
        certificate.edition(),
        certificate.geometry(),
        certificate.values(),
        certificate.factors(),
    );
    let mut out = String::new(heap);
    write_fields(&mut out, &numbers)?;
    write_list(
        &mut out,
        "cracked",
        certificate.section(Section::Cracked).bytes,
    )?;
    write_list(
        &mut out,
        "uncracked",
        certificate.section(Section::Uncracked).bytes,
    )?;
    Ok(out)
}
