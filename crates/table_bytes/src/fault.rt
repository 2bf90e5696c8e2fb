// Why a word of a table is refused.
ghost use Rattle.std.specs.Prelude.{◌≡◌, Some};
ghost use Rattle.table_bytes.specs.Written.{fault_of, fault_text};

use hex::FromHexError;
use std::error::Error;
use std::fmt;

#[derive(Clone, Copy, Debug, PartialEq, Eq)]
pub enum TableFault {
    Half,
    Digit,
    Memory,
}

impl fmt::Display for TableFault {
    ghost output = { λ fault. Some (fault_text fault) };

    fn fmt<W: fmt::Write>(&self, f: &mut fmt::Formatter<W>) -> fmt::Result {
        match self {
            TableFault::Half => write!(f, "half a byte"),
            TableFault::Digit => write!(f, "not a hex digit"),
            TableFault::Memory => write!(f, "memory allocation failed"),
        }
    }
}

impl Error for TableFault {}

impl From<FromHexError> for TableFault {
    ghost from_gives = { λ e r. r ≡ fault_of e };

    fn from(e: FromHexError) -> TableFault {
        match e {
            FromHexError::InvalidHexCharacter { c: _, index: _ } => TableFault::Digit,
            FromHexError::OddLength | FromHexError::InvalidStringLength => TableFault::Half,
            FromHexError::OutOfMemory => TableFault::Memory,
        }
    }
}
