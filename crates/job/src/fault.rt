// Why a job, or a line of it, is refused.
ghost use Rattle.std.specs.Prelude.{◌≡◌, Some};
ghost use Rattle.job.specs.Printed.{refusal_words};
ghost use Rattle.job.specs.Refusals.{number, place, lifted};
ghost use Rattle.job.specs.declared.fault.JobFault.TheVariants.{Refused as JobRefused, Memory};
ghost use Rattle.job.specs.declared.fault.JobRefusal.TheVariants.{Certificate};

use bolts::refusal::Refusal;
use certificate::fault::CertificateFault;
use rating::fault::SheetFault;
use std::alloc::AllocError;
use std::fmt;

const LINE_QUESTION: u8 = 16;

pub(crate) const FIRST_LINE: usize = 1;

// The question that was answered no, and where; lines count from 1.
#[derive(Clone, Copy, Debug, PartialEq, Eq)]
pub enum JobRefusal {
    // The certificate's own fault, whole, with question and byte.
    Certificate(CertificateFault),
    // A call on the load case, or the numbers that it is opened with.
    Case { refusal: Refusal, line: usize },
    // The certificate does not list the site's strength.
    Strength { line: usize },
    // The line is not understood, or it is a site where none may be or none where one must.
    Line { line: usize },
}

impl JobRefusal {
    // The number of the question.
    pub fn number(self) -> u8
        ensures { result ≡ number self }
    {
        match self {
            JobRefusal::Certificate(fault) => fault.question.number(),
            JobRefusal::Case { refusal, line: _ } => refusal.number(),
            JobRefusal::Strength { line: _ } => SheetFault::Strength.number(),
            JobRefusal::Line { line: _ } => LINE_QUESTION,
        }
    }

    // The byte of the certificate, or the line of the job.
    pub fn place(self) -> usize
        ensures { result ≡ place self }
    {
        match self {
            JobRefusal::Certificate(fault) => fault.byte,
            JobRefusal::Case { refusal: _, line }
            | JobRefusal::Strength { line }
            | JobRefusal::Line { line } => line,
        }
    }
}

impl fmt::Display for JobRefusal {
    ghost output = { λ r. Some (refusal_words r) };

    fn fmt<W: fmt::Write>(&self, f: &mut fmt::Formatter<W>) -> fmt::Result {
        let number = self.number();
        let place = self.place();
        write!(f, "refused {number} {place}")
    }
}

// Why a job gave no outcomes.
#[derive(Clone, Copy)]
pub enum JobFault {
    Refused(JobRefusal),
    Memory,
}

impl From<CertificateFault> for JobFault {
    ghost from_gives = { λ f r. r ≡ JobRefused (Certificate f) };

    fn from(fault: CertificateFault) -> JobFault {
        JobFault::Refused(JobRefusal::Certificate(fault))
    }
}

// The sheet is made of the first line.
impl From<SheetFault> for JobFault {
    ghost from_gives = { λ f r. r ≡ JobRefused (lifted f) };

    fn from(fault: SheetFault) -> JobFault {
        JobFault::Refused(match fault {
            SheetFault::Certificate(fault) => JobRefusal::Certificate(fault),
            SheetFault::Site(refusal) => JobRefusal::Case {
                refusal,
                line: FIRST_LINE,
            },
            SheetFault::Strength => JobRefusal::Strength { line: FIRST_LINE },
        })
    }
}

impl From<AllocError> for JobFault {
    ghost from_gives = { λ _ r. r ≡ Memory };

    fn from(_e: AllocError) -> JobFault {
        JobFault::Memory
    }
}
