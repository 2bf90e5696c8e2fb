// The printed form of outcomes.
ghost use Rattle.std.specs.Prelude.{◌≡◌, IfOk, string_bytes};
ghost use Rattle.std.specs.List.{flat_map};
ghost use Rattle.job.specs.Jobs.{PrintsFault, Printed};
ghost use Rattle.job.specs.Printed.{outcome_text};

use crate::fault::JobFault;
use crate::outcome::Outcome;
use crate::running::run_job;
use std::alloc::{AllocError, Global};

// A line for each outcome.
pub fn print(heap: Global, outcomes: &[Outcome]) -> Result<String, AllocError>
    ensures { IfOk result (λ s. string_bytes s ≡ flat_map outcome_text outcomes.now) }
{
    let mut out = String::new(heap);
    for outcome in outcomes {
        writeln!(out, "{outcome}")?;
    }
    Ok(out)
}

// A refusal that ends a job is its one outcome.
fn print_fault(heap: Global, fault: JobFault) -> Result<String, AllocError>
    ensures { IfOk result (PrintsFault fault) }
{
    match fault {
        JobFault::Refused(refusal) => print(heap, &[Outcome::Refused(refusal)]),
        JobFault::Memory => Err(AllocError),
    }
}

// The printed outcomes of a job; only memory can be wanting.
pub fn rate_job(heap: Global, certificate: &[u8], job: &[u8]) -> Result<String, AllocError>
    ensures { Printed certificate.now job.now result }
{
    match run_job(heap, certificate, job) {
        Ok(outcomes) => print(heap, &outcomes),
        Err(fault) => print_fault(heap, fault),
    }
}
