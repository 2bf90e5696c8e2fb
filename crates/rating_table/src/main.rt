// Reads a table of jobs, one on each line of standard input: the bytes of a certificate and those of a job as hex digits,
// with a space between; no bytes stand as one dash. It prints what the proved program prints of each, and after it a line
// with a full stop. The table and the expected text come from an implementation of the rules in another language,
// `reference/rating.py`, so a difference shows that one of the two departs from the documents.
#![tactic(auto)]

use anyhow::Context;
use job::printing::rate_job;
use std::alloc::Global;
use std::io::{BufRead, BufReader};
use table_bytes::table_bytes;

// What is printed of one line of the table.
fn answer(heap: Global, line: &str) -> anyhow::Result<String> {
    let (certificate, job) = line.split_once(' ').context("no space on the line")?;
    let certificate = table_bytes(heap, certificate)?;
    let job = table_bytes(heap, job)?;
    Ok(rate_job(heap, &certificate, &job)?)
}

fn run(rt: &HostRuntime) -> anyhow::Result<()> {
    let heap = rt.alloc();
    for line in BufReader::new(heap, rt.stdin())?.lines(heap) {
        let text = answer(heap, line?.as_str())?;
        rt.print(text)?;
        rt.println(".")?;
    }
    Ok(())
}

fn main(rt: HostRuntime) -> anyhow::Result<()> {
    run(&rt)
}
