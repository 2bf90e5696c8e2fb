// Bytes as the tables of worked cases write them: two lower-case hex digits for each, and a dash where there are none.
// The crate promises that a word of a table is read as the bytes that it writes, or refused by the first fault that it
// has.
#![tactic(auto)]

ghost use Rattle.std.specs.Prelude.{◌≡◌, ◌⊎◌, IfOk, IfErr, IsOk};
ghost use Rattle.std.specs.Char.{is_ascii_uppercase};
ghost use Rattle.std.specs.List.{list_any};
ghost use Rattle.table_bytes.specs.Written.{bytes_of, is_other};
ghost use Rattle.table_bytes.specs.declared.fault.TableFault.TheVariants.{Memory};

use crate::fault::TableFault;
use std::alloc::Global;

pub mod fault;

// What stands where there are no bytes.
const NO_BYTES: &str = "-";

// The bytes that a word writes.
#[tactic(auto, using(crate::proofs::Refused::refused, crate::proofs::Refused::read))]
pub fn table_bytes(heap: Global, word: &str) -> Result<Vec<u8>, TableFault>
    ensures ok { IfOk result (λ v. bytes_of word.now ≡ Ok v.items) }
    ensures err { IfErr result (λ e. ((e ≡ Memory) × IsOk (bytes_of word.now)) ⊎ (bytes_of word.now ≡ Err e)) }
{
    if word == NO_BYTES {
        return Ok(Vec::new(heap));
    }
    if word.len() % 2 == 1 {
        return Err(TableFault::Half);
    }
    if has_upper(word.as_bytes()) {
        return Err(TableFault::Digit);
    }
    match hex::decode(heap, word) {
        Ok(bytes) => Ok(bytes),
        // room is asked before the digits; where it is wanting, a letter that is none is the word's own fault
        Err(_) if has_other(word.as_bytes()) => Err(TableFault::Digit),
        Err(e) => Err(e.into()),
    }
}

// Whether a letter is in upper case.
fn has_upper(word: &[u8]) -> bool
    ensures { result ≡ list_any is_ascii_uppercase word.now }
{
    word.iter().any(u8::is_ascii_uppercase)
}

// Whether a letter is no digit; an upper-case one is none.
fn has_other(word: &[u8]) -> bool
    ensures { result ≡ list_any is_other word.now }
{
    word.iter()
        .any(|letter| !matches!(*letter, b'0'..=b'9' | b'a'..=b'f'))
}
