// Why a text or a certificate is not taken.
ghost use Rattle.std.specs.Prelude.{◌≡◌, Some};
ghost use Rattle.certificate_tool.specs.Told.{told};
ghost use Rattle.certificate_tool.specs.declared.fault.ToolFault.TheVariants.{Text, Refused, Memory};

use certificate::fault::CertificateFault;
use certificate_text::fault::TextFault;
use std::alloc::AllocError;
use std::fmt;

// A fault of the text or of the certificate, carried whole, or no memory.
#[derive(Clone, Copy)]
pub enum ToolFault {
    Text(TextFault),
    Refused(CertificateFault),
    Memory,
}

impl From<TextFault> for ToolFault {
    ghost from_gives = { λ e r. r ≡ Text e };

    fn from(e: TextFault) -> ToolFault {
        ToolFault::Text(e)
    }
}

impl From<CertificateFault> for ToolFault {
    ghost from_gives = { λ e r. r ≡ Refused e };

    fn from(e: CertificateFault) -> ToolFault {
        ToolFault::Refused(e)
    }
}

impl From<AllocError> for ToolFault {
    ghost from_gives = { λ _ r. r ≡ Memory };

    fn from(_e: AllocError) -> ToolFault {
        ToolFault::Memory
    }
}

// What is printed of a fault: `refused NUMBER BYTE`, or a line about the text.
impl fmt::Display for ToolFault {
    ghost output = { λ fault. Some (told fault) };

    fn fmt<W: fmt::Write>(&self, f: &mut fmt::Formatter<W>) -> fmt::Result {
        match self {
            ToolFault::Text(fault) => write!(f, "{fault}"),
            ToolFault::Refused(fault) => write!(f, "{fault}"),
            ToolFault::Memory => write!(f, "out of memory"),
        }
    }
}
