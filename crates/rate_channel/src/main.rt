// Rates a channel: reads its certificate, `channel.cert` in the current folder, and a job on standard input, and prints
// what comes of the job's lines. The first line is a site, the others are calls; each stands on a line of its own, a word
// and numbers of 1 to 9 digits with single spaces between.
//
//     site STRENGTH CRACKED EDGE LEFT RIGHT THICKNESS DENSE FACTOR ANCHORS SPACING
//     place POSITION TENSION SHEAR
//     lift POSITION
//     rate
//
// A rating prints `accepted` or `rejected`, the largest utilisation in ten-thousandths, its line and place, and the first
// combined check that fails, or 0. A refusal prints `refused`, the number of the question, and the line of the job or,
// for a certificate, the byte; a refused certificate or first line ends the job.
#![tactic(auto)]

use anyhow::anyhow;
use job::printing::rate_job;
use std::fs;
use std::io::Read;

const FILE: &str = "channel.cert";

fn run(rt: &HostRuntime) -> anyhow::Result<()> {
    // not tell_file: this program does not rest on the certificate tools
    let certificate = match fs::read(rt, FILE) {
        Ok(bytes) => bytes,
        // the file's name and fault stand on a line of their own, before the one that `main` leaves
        Err(e) => {
            eprintln!(rt; "{FILE}: {e}")?;
            return Err(anyhow!("no certificate"));
        }
    };
    let mut job = Vec::new(rt.alloc());
    rt.stdin().read_to_end(&mut job)?;
    Ok(rt.print(rate_job(rt.alloc(), &certificate, &job)?)?)
}

fn main(rt: HostRuntime) -> anyhow::Result<()> {
    run(&rt)
}
