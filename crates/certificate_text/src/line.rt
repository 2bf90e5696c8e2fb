// What a line says: a name, and after it one number or two.
ghost use Rattle.std.specs.Prelude.{◌≡◌, [], MatchOption};
ghost use Rattle.text_pieces.specs.Pieces.{words};
ghost use Rattle.certificate_text.specs.Fields.{field_of};
ghost use Rattle.certificate_text.specs.Lines.{after_name, bounded, two_numbers, field_line, entry_line};

use crate::names::Field;
use certificate::fields::StrengthFactor;
use text_pieces::numeral::number_in;
use text_pieces::pieces::cut_word;

// What follows the name and a space; none where the line begins otherwise.
fn after_name<'a>(line: &'a [u8], name: &str) -> Option<&'a [u8]>
    ensures { MatchOption result (after_name name.now (words line.now) ≡ []) (λ rest. after_name name.now (words line.now) ≡ words rest.now) }
{
    let cut = cut_word(line);
    if cut.word == name.as_bytes() {
        cut.rest
    } else {
        None
    }
}

// A number that is at most so large.
fn bounded_in(word: &[u8], most: u32) -> Option<u32>
    ensures { result ≡ bounded most word.now }
{
    number_in(word).filter(|number| *number <= most)
}

// A number of 16 bits.
fn short_in(word: &[u8]) -> Option<u16>
    ensures { result ≡ bounded 65535 word.now }
{
    u16::try_from(number_in(word)?).ok()
}

// The number of a field's line.
pub(crate) fn field_in(line: &[u8], field: &Field) -> Option<u32>
    ensures { result ≡ field_line (field_of field.now) line.now }
{
    bounded_in(after_name(line, field.name)?, field.most)
}

// The two numbers that the words of a byte string are.
fn pair_in(bytes: &[u8]) -> Option<StrengthFactor>
    ensures { result ≡ two_numbers (words bytes.now) }
{
    let cut = cut_word(bytes);
    let rest = cut.rest?;
    let strength = short_in(cut.word)?;
    let factor = short_in(rest)?;
    Some(StrengthFactor { strength, factor })
}

// The entry of a line that is a name and two numbers.
pub(crate) fn entry_in(line: &[u8], name: &str) -> Option<StrengthFactor>
    ensures { result ≡ entry_line name.now line.now }
{
    pair_in(after_name(line, name)?)
}
