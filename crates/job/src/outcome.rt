// What comes of a line of a job.
ghost use Rattle.std.specs.Prelude.{Some};
ghost use Rattle.job.specs.Printed.{outcome_words};

use crate::fault::JobRefusal;
use std::fmt;
use verdict::answer::{CombinedCheck, Governing, Verdict};

// Printed where no line has a place.
const NO_PLACE: Governing = Governing {
    utilisation: 0,
    line: 0,
    place: 0,
};

// Printed where no combined check fails.
const NO_CHECK: u8 = 0;

// no Result: it has a printed form of its own
#[derive(Clone, Copy, Debug, PartialEq, Eq)]
pub enum Outcome {
    Rated(Verdict),
    Refused(JobRefusal),
}

impl fmt::Display for Outcome {
    ghost output = { λ o. Some (outcome_words o) };

    fn fmt<W: fmt::Write>(&self, f: &mut fmt::Formatter<W>) -> fmt::Result {
        match self {
            Outcome::Rated(verdict) => {
                let word = if verdict.accepted {
                    "accepted"
                } else {
                    "rejected"
                };
                let governing = verdict.governing.unwrap_or(NO_PLACE);
                let utilisation = governing.utilisation;
                let line = governing.line;
                let place = governing.place;
                let failed = verdict.failed_check.map_or(NO_CHECK, CombinedCheck::number);
                write!(f, "{word} {utilisation} {line} {place} {failed}")
            }
            Outcome::Refused(refusal) => write!(f, "{refusal}"),
        }
    }
}
