// Prints the text of the certificate `channel.cert` in the current folder.
#![tactic(auto)]

use certificate_tool::show;
use certificate_tool::telling::{FILE, tell, tell_file};
use std::fs;

fn main(rt: HostRuntime) -> anyhow::Result<()> {
    let bytes = tell_file(&rt, fs::read(&rt, FILE))?;
    tell(&rt, show(rt.alloc(), &bytes))
}
