// Why a sheet is refused.
ghost use Rattle.std.specs.Prelude.{◌≡◌};
ghost use Rattle.rating.specs.Numbers.{number};
ghost use Rattle.rating.specs.declared.fault.SheetFault.TheVariants.{Certificate, Site};

use bolts::refusal::Refusal;
use certificate::fault::CertificateFault;

#[derive(Clone, Copy, Debug, PartialEq, Eq)]
pub enum SheetFault {
    // The certificate's own fault, whole, with question and byte.
    Certificate(CertificateFault),
    // A number of the site is out of range.
    Site(Refusal),
    // The list for the concrete's state has no entry of the strength.
    Strength,
}

const STRENGTH_QUESTION: u8 = 6;

impl SheetFault {
    // The number of the question that was answered no.
    pub fn number(self) -> u8
        ensures { result ≡ number self }
    {
        match self {
            SheetFault::Certificate(fault) => fault.question.number(),
            SheetFault::Site(refusal) => refusal.number(),
            SheetFault::Strength => STRENGTH_QUESTION,
        }
    }
}

impl From<CertificateFault> for SheetFault {
    ghost from_gives = { λ f r. r ≡ Certificate f };

    fn from(fault: CertificateFault) -> SheetFault {
        SheetFault::Certificate(fault)
    }
}

impl From<Refusal> for SheetFault {
    ghost from_gives = { λ e r. r ≡ Site e };

    fn from(refusal: Refusal) -> SheetFault {
        SheetFault::Site(refusal)
    }
}
