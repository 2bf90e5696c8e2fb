// Reads a table of certificates, lawful and damaged, one on each line of standard input as hex digits, and prints what
// the proved reader answers: all the numbers of a certificate, or the question that refuses it and the byte. An empty
// file stands in the table as a line with one dash. The table and the expected answers come from an implementation of
// the format in another language, `reference/certificate.py`, so a difference shows that one of the two departs from
// the documents.
#![tactic(auto)]

mod answer;

use answer::Answer;
use certificate::certificate::Certificate;
use std::io::{BufRead, BufReader};
use table_bytes::table_bytes;

fn run(rt: &HostRuntime) -> anyhow::Result<()> {
    let heap = rt.alloc();
    for line in BufReader::new(heap, rt.stdin())?.lines(heap) {
        let bytes = table_bytes(heap, line?.as_str())?;
        rt.println(Answer(Certificate::read(bytes.as_slice())))?;
    }
    Ok(())
}

fn main(rt: HostRuntime) -> anyhow::Result<()> {
    run(&rt)
}
