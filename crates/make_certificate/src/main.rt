// Makes `channel.cert` in the current folder from a readable text on standard input, reads it back and prints its text.
#![tactic(auto)]

use certificate_tool::telling::{FILE, tell, tell_file};
use certificate_tool::{make, show};
use std::fs;
use std::io::Read;

fn main(rt: HostRuntime) -> anyhow::Result<()> {
    let heap = rt.alloc();
    let mut text = Vec::new(heap);
    rt.stdin().read_to_end(&mut text)?;
    let made = match make(heap, &text) {
        Ok(made) => made,
        Err(fault) => return tell(&rt, Err(fault)), // told as a fault of `show` is
    };
    tell_file(&rt, fs::write(&rt, FILE, made.as_slice()))?;
    let kept = tell_file(&rt, fs::read(&rt, FILE))?;
    tell(&rt, show(heap, &kept))
}
