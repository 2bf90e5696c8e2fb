// The line that the table has for an answer of the reader.
use certificate::certificate::Certificate;
use certificate::fault::CertificateFault;
use certificate::fields::StrengthFactor;
use certificate::layout::{ENTRY_LENGTH, Section};
use certificate::lookup::entry_in;
use certificate::numbers::{factors_list, geometry_shorts, values_list};
use std::fmt;

// `refused QUESTION BYTE`, or `ok` and every number in the order of the file.
#[derive(Drop)]
pub struct Answer<'a>(pub Result<Certificate<'a>, CertificateFault>);

impl fmt::Display for Answer<'_> {
    fn fmt<W: fmt::Write>(&self, f: &mut fmt::Formatter<W>) -> fmt::Result {
        match self.0 {
            Ok(found) => write_certificate(&found, f),
            Err(fault) => write!(f, "{fault}"),
        }
    }
}

fn write_certificate<W: fmt::Write>(
    found: &Certificate<'_>,
    f: &mut fmt::Formatter<W>,
) -> fmt::Result {
    let edition = u8::from(found.edition());
    write!(f, "ok {edition}")?;
    let geometry = found.geometry();
    write_numbers(&geometry_shorts(&geometry), f)?;
    write_numbers(&[geometry.moment_of_inertia], f)?;
    write_numbers(&values_list(&found.values()), f)?;
    write_numbers(&factors_list(&found.factors()), f)?;
    write_list(found.section(Section::Cracked).bytes, f)?;
    write_list(found.section(Section::Uncracked).bytes, f)
}

fn write_numbers<N: fmt::Display, W: fmt::Write>(
    numbers: &[N],
    f: &mut fmt::Formatter<W>,
) -> fmt::Result {
    for number in numbers {
        write!(f, " {number}")?;
    }
    Ok(())
}

fn write_list<W: fmt::Write>(list: &[u8], f: &mut fmt::Formatter<W>) -> fmt::Result {
    let entries = list.chunks_exact(ENTRY_LENGTH).map(entry_in);
    let count = entries.len();
    write!(f, " {count}")?;
    for StrengthFactor { strength, factor } in entries {
        write!(f, " {strength} {factor}")?;
    }
    Ok(())
}
