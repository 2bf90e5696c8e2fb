// Why a text is refused.
ghost use Rattle.std.specs.Prelude.{◌≡◌, Some};
ghost use Rattle.certificate_text.specs.Faults.{fault_text};
ghost use Rattle.certificate_text.specs.declared.fault.TextFault.TheVariants.{Memory};

use std::alloc::{AllocError, AllocFailed};
use std::fmt;

// The first line that is not understood, from 1, or no memory for the lists.
#[derive(Clone, Copy, Debug, PartialEq, Eq)]
pub enum TextFault {
    Line(usize),
    Memory,
}

impl From<AllocError> for TextFault {
    ghost from_gives = { λ _ r. r ≡ Memory };

    fn from(_e: AllocError) -> TextFault {
        TextFault::Memory // nothing was allocated
    }
}

impl<T: Drop> From<AllocFailed<T>> for TextFault {
    ghost from_gives = { λ _ r. r ≡ Memory };

    fn from(_e: AllocFailed<T>) -> TextFault {
        TextFault::Memory // the refused entry is let go
    }
}

impl fmt::Display for TextFault {
    ghost output = { λ fault. Some (fault_text fault) };

    fn fmt<W: fmt::Write>(&self, f: &mut fmt::Formatter<W>) -> fmt::Result {
        match self {
            TextFault::Line(line) => write!(f, "line {line} of the text is not understood"),
            TextFault::Memory => write!(f, "out of memory"),
        }
    }
}
