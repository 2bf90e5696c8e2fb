// The numbers of the first two sections: where each lies, and in which range.
ghost use Rattle.std.specs.Prelude.{◌≡◌, ◌≤◌};
ghost use Rattle.certificate.specs.Asked.{first_no};
ghost use Rattle.certificate.specs.Rules.{value_at, allowed, fields_asked, ratios_asked};

use crate::bytes::{u16_at, u32_at};
use crate::fault::{CertificateFault, Question};
use crate::part::Part;

// How many bytes a number takes.
#[derive(Clone, Copy)]
pub enum Width {
    Two,
    Four,
}

// A number of a section: where it begins, its width, its range, and whether 0 is lawful besides. The range is two
// numbers: a rule is copied, and a `RangeInclusive` is not.
#[derive(Clone, Copy)]
pub struct FieldRule {
    pub offset: u8,
    pub width: Width,
    pub least: u32,
    pub most: u32,
    pub or_zero: bool, // a flag: a rule stands as a row of the format
}

impl FieldRule {
    fn value(self, section: &[u8]) -> u32
        ensures { result ≡ value_at section.now self }
    {
        let at = usize::from(self.offset);
        match self.width {
            Width::Two => u32::from(u16_at(section, at)),
            Width::Four => u32_at(section, at),
        }
    }

    fn allows(self, value: u32) -> bool
        ensures { result ≡ allowed self value }
    {
        (self.least..=self.most).contains(&value) || self.or_zero && value == 0
    }
}

pub(crate) fn ask_fields(section: Part<'_>, rules: &[FieldRule]) -> Result<(), CertificateFault>
    ensures { result ≡ first_no (fields_asked section.entry.place section.entry.bytes.now rules.now) }
{
    for rule in rules {
        if !rule.allows(rule.value(section.bytes)) {
            return Err(Question::Range.at(section.place + usize::from(rule.offset)));
        }
    }
    Ok(())
}

// Whether the channel's height is at most 0.4 and its width at most 0.7 of the embedment depth.
pub(crate) fn ask_ratios(section: Part<'_>) -> Result<(), CertificateFault>
    ensures { result ≡ first_no (ratios_asked section.entry.place section.entry.bytes.now) }
{
    let depth = u32::from(u16_at(section.bytes, 0));
    let width = u32::from(u16_at(section.bytes, 2));
    let height = u32::from(u16_at(section.bytes, 4));
    if 10 * height > 4 * depth {
        return Err(Question::Range.at(section.place + 4));
    }
    if 10 * width > 7 * depth {
        return Err(Question::Range.at(section.place + 2));
    }
    Ok(())
}
