// How the programs tell an outcome: an answer on standard output, and on standard error why there is none.
ghost use Rattle.std.specs.Prelude.{◌≡◌, ◌↔◌, true, IsOk, IsErr, IfOk, Ok};
ghost use Rattle.certificate_tool.specs.Outcomes.{is_failure};

use crate::fault::ToolFault;
use anyhow::anyhow;
use std::io;

// The certificate's file, in the current folder.
pub const FILE: &str = "channel.cert";

// Prints the text. A refusal is an answer too; any other fault is told on standard error, and ends the program with
// status 1.
pub fn tell(rt: &HostRuntime, shown: Result<String, ToolFault>) -> anyhow::Result<()>
    ensures { is_failure shown ≡ true → IsErr result }
{
    match shown {
        Ok(text) => Ok(rt.print(text)?),
        Err(fault @ ToolFault::Refused(_)) => Ok(println!(rt; "{fault}")?),
        Err(fault) => {
            eprintln!(rt; "{fault}")?;
            Err(anyhow!("no certificate"))
        }
    }
}

// What came of the file; an error is told under the file's name, and ends the program with status 1.
pub fn tell_file<T: Drop>(rt: &HostRuntime, outcome: io::Result<T>) -> anyhow::Result<T>
    ensures variant { IsOk result ↔ IsOk outcome }
    ensures value { IfOk result (λ x. outcome ≡ Ok x) }
{
    match outcome {
        Ok(value) => Ok(value),
        Err(e) => {
            eprintln!(rt; "{FILE}: {e}")?;
            Err(anyhow!("no certificate"))
        }
    }
}
