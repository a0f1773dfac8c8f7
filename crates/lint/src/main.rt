//! Reads a block of command texts for port M from standard input, and prints what each text is.
#![tactic(auto)]

use linter::report;
use std::io::Read;

fn run(rt: &HostRuntime) -> anyhow::Result<()> {
    let mut block = Vec::new(rt.alloc());
    rt.stdin().read_to_end(&mut block)?;
    let lines = report(rt.alloc(), block.as_slice())?;
    rt.stdout().write_all(lines.as_slice())?;
    Ok(())
}

fn main(rt: HostRuntime) -> anyhow::Result<()> {
    run(&rt)
}
