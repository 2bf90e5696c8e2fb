// The head of the file: edition, number of sections, and where each section lies.
ghost use Rattle.std.specs.Prelude.{◌≡◌, ◌+◌, ◌*◌, ◌≤◌};
ghost use Rattle.certificate.specs.Asked.{first_no};
ghost use Rattle.certificate.specs.Layout.{number_of, offset, size, section_end, section_of, pair_byte, header_asked, pair_asked, layout_asked, right_size};

use crate::bytes::u16_at;
use crate::fault::{CertificateFault, Question};
use crate::fields::Edition;
use crate::part::Part;

pub const HEADER_LENGTH: usize = 18;

pub const MOST_BYTES: usize = 4096;

pub const SECTIONS: u8 = 4;

pub(crate) const GEOMETRY_LENGTH: u16 = 24;

pub(crate) const RESISTANCE_LENGTH: u16 = 60;

// The bytes of an entry of a list: two of strength, two of factor.
pub const ENTRY_LENGTH: usize = 4;

// The same as a number of a pair; `as`: From is not for constants.
const ENTRY_SIZE: u16 = ENTRY_LENGTH as u16;

const LEAST_LIST: u16 = 4;

const MOST_LIST: u16 = 256;

// The four sections, in the order of their pairs.
#[derive(Clone, Copy)]
pub enum Section {
    Geometry,
    Resistance,
    Cracked,
    Uncracked,
}

impl Section {
    // The place of the section among the four, from 0.
    pub fn index(self) -> usize
        ensures { result ≡ number_of self }
    {
        match self {
            Section::Geometry => 0,
            Section::Resistance => 1,
            Section::Cracked => 2,
            Section::Uncracked => 3,
        }
    }

    // Where the section's pair of offset and length begins.
    fn pair_byte(self) -> usize
        ensures { result ≡ pair_byte self }
    {
        2 + 4 * self.index()
    }

    // Whether the section may have this length.
    fn may_be(self, length: u16) -> bool
        ensures { result ≡ right_size self length }
    {
        match self {
            Section::Geometry => length == GEOMETRY_LENGTH,
            Section::Resistance => length == RESISTANCE_LENGTH,
            Section::Cracked | Section::Uncracked => {
                (LEAST_LIST..=MOST_LIST).contains(&length) && length % ENTRY_SIZE == 0
            }
        }
    }
}

// Where a section begins, and how long it is, as its pair says.
#[derive(Clone, Copy)]
struct Pair {
    offset: u16,
    length: u16,
}

impl Pair {
    // The pair of this section.
    fn of(bytes: &[u8], section: Section) -> Pair
        ensures offset { result.offset ≡ offset bytes.now section }
        ensures length { result.length ≡ size bytes.now section }
    {
        let at = section.pair_byte();
        Pair {
            offset: u16_at(bytes, at),
            length: u16_at(bytes, at + 2),
        }
    }

    // Where the section ends.
    fn end(self) -> usize
        ensures { result ≡ self.offset + self.length }
    {
        usize::from(self.offset) + usize::from(self.length)
    }
}

pub(crate) fn ask_header(bytes: &[u8]) -> Result<(), CertificateFault>
    ensures { result ≡ first_no (header_asked bytes.now) }
{
    if !(HEADER_LENGTH..=MOST_BYTES).contains(&bytes.len()) {
        return Err(Question::Header.at(0));
    }
    Edition::try_from(bytes[0])?;
    if bytes[1] != SECTIONS {
        return Err(Question::Header.at(1));
    }
    Ok(())
}

fn ask_pair(bytes: &[u8], section: Section, from: usize) -> Result<(), CertificateFault>
    ensures { result ≡ first_no (pair_asked bytes.now section from) }
{
    let pair = Pair::of(bytes, section);
    if usize::from(pair.offset) < from || pair.end() > bytes.len() || !section.may_be(pair.length) {
        return Err(Question::Layout.at(section.pair_byte()));
    }
    Ok(())
}

// Whether the sections lie in order, apart, inside the file, and have right lengths.
pub(crate) fn ask_layout(bytes: &[u8]) -> Result<(), CertificateFault>
    ensures { result ≡ first_no (layout_asked bytes.now) }
{
    ask_pair(bytes, Section::Geometry, HEADER_LENGTH)?;
    ask_pair(
        bytes,
        Section::Resistance,
        section_end(bytes, Section::Geometry),
    )?;
    ask_pair(
        bytes,
        Section::Cracked,
        section_end(bytes, Section::Resistance),
    )?;
    ask_pair(
        bytes,
        Section::Uncracked,
        section_end(bytes, Section::Cracked),
    )
}

fn section_end(bytes: &[u8], section: Section) -> usize
    ensures { result ≡ section_end bytes.now section }
{
    Pair::of(bytes, section).end()
}

// The part of the caller's bytes that a section's pair points to, as far as it lies inside the file.
pub(crate) fn part_of<'a>(bytes: &'a [u8], section: Section) -> Part<'a>
    ensures place { result.place ≡ offset bytes.now section }
    ensures bytes { result.bytes.now ≡ section_of bytes.now section }
{
    let pair = Pair::of(bytes, section);
    let place = usize::from(pair.offset);
    let begin = place.min(bytes.len());
    let end = pair.end().min(bytes.len());
    Part {
        place,
        bytes: &bytes[begin..end],
    }
}
