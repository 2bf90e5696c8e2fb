// Running a job.
ghost use Rattle.std.specs.Prelude.{◌≡◌, [], ◌∷◌, Some, IfOk, MatchResult};
ghost use Rattle.job_text.specs.declared.line.JobLine.TheVariants.{Site};
ghost use Rattle.job.specs.declared.fault.JobFault.TheVariants.{Refused};
ghost use Rattle.job.specs.declared.fault.JobRefusal.TheVariants.{Line};
ghost use Rattle.job.specs.Jobs.{WithoutSite, RatedBy, RanAs, Ran};

use crate::answering::answers_on;
use crate::fault::{FIRST_LINE, JobFault, JobRefusal};
use crate::outcome::Outcome;
use crate::said::said_lines;
use crate::script::script_of;
use crate::telling::outcomes_of;
use certificate::certificate::Certificate;
use job_text::line::JobLine;
use rating::prepared::Prepared;
use site::numbers::SiteNumbers;
use std::alloc::{AllocError, Global};

// The numbers of the site, which the first line says.
fn first_site(first: Option<JobLine>) -> Result<SiteNumbers, JobFault>
    ensures { MatchResult result (λ n. first ≡ Some (Site n)) (λ e. (e ≡ Refused (Line 1)) × WithoutSite (first ∷ [])) }
{
    match first {
        Some(JobLine::Site(numbers)) => Ok(numbers),
        _ => Err(JobFault::Refused(JobRefusal::Line { line: FIRST_LINE })),
    }
}

// The outcomes of the lines after the site.
fn rated(
    heap: Global,
    prepared: &Prepared,
    lines: &[Option<JobLine>],
) -> Result<Vec<Outcome>, AllocError>
    ensures { IfOk result (λ v. RatedBy prepared.now lines.now v.items) }
{
    let calls = script_of(heap, lines)?;
    let answers = answers_on(heap, prepared, &calls)?;
    outcomes_of(heap, lines, &answers)
}

// The outcomes of a job whose lines say this.
fn run_said(
    heap: Global,
    certificate: &[u8],
    said: &[Option<JobLine>],
) -> Result<Vec<Outcome>, JobFault>
    ensures { RanAs certificate.now said.now result }
{
    // asked before any line, so that a refused certificate is told whatever the lines say
    let _ = Certificate::read(certificate)?;
    let Some((first, lines)) = said.split_first() else {
        return Ok(Vec::new(heap));
    };
    let site = first_site(*first)?;
    let prepared = Prepared::new(certificate, site)?;
    Ok(rated(heap, &prepared, lines)?)
}

// The outcomes of a job, line by line. A refused certificate or a refused first line ends it.
pub fn run_job(heap: Global, certificate: &[u8], job: &[u8]) -> Result<Vec<Outcome>, JobFault>
    ensures { Ran certificate.now job.now result }
{
    let said = said_lines(heap, job)?;
    run_said(heap, certificate, &said)
}
