// Why a certificate is refused: which question failed, and where.
ghost use Rattle.std.specs.Prelude.{◌≡◌, Some};
ghost use Rattle.certificate.specs.Asked.{fault};
ghost use Rattle.certificate.specs.Numbers.{number, refused_text};

use std::fmt;

// What is asked of a certificate.
#[derive(Clone, Copy, Debug, PartialEq, Eq)]
pub enum Question {
    Header,
    Layout,
    Range,
    Strengths,
    Buffer,
}

impl Question {
    // The number under which the question is refused.
    pub fn number(self) -> u8
        ensures { result ≡ number self }
    {
        match self {
            Question::Header => 1,
            Question::Layout => 2,
            Question::Range => 3,
            Question::Strengths => 4,
            Question::Buffer => 15,
        }
    }

    // The fault that the question failed at this byte.
    pub(crate) fn at(self, byte: usize) -> CertificateFault
        ensures { result ≡ fault self byte }
    {
        CertificateFault {
            question: self,
            byte,
        }
    }
}

// The first question that failed, and the byte where the failing pair or field begins.
#[derive(Clone, Copy, Debug, PartialEq, Eq)]
pub struct CertificateFault {
    pub question: Question,
    pub byte: usize,
}

impl fmt::Display for CertificateFault {
    ghost output = { λ fault. Some (refused_text fault) };

    fn fmt<W: fmt::Write>(&self, f: &mut fmt::Formatter<W>) -> fmt::Result {
        let question = self.question.number();
        let byte = self.byte;
        write!(f, "refused {question} {byte}")
    }
}
