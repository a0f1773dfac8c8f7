//! Reads a block of texts from standard input, and prints what each of them asks for.
#![tactic(auto)]

use anyhow::{Context, ensure};
use explainer::{Reading, report};
use std::env;
use std::io::Read;

const ALLOWED: &str = "allowed arguments are p (port P), set (Set), or none (port M)";

/// The reading that the argument asks for: with none, port M's.
fn choose(rt: &HostRuntime) -> anyhow::Result<Reading> {
    let mut words = env::args(rt)?.skip(1);
    let Some(word) = words.next() else {
        return Ok(Reading::Mount);
    };
    ensure!(words.next().is_none(), "{ALLOWED}, and not more than one");
    Reading::named(word.as_str()).context(format_args!("{ALLOWED}, and not {word}"))
}

fn run(rt: &HostRuntime) -> anyhow::Result<()> {
    let reading = choose(rt)?;
    let mut block = Vec::new(rt.alloc());
    rt.stdin().read_to_end(&mut block)?;
    let lines = report(rt.alloc(), reading, block.as_slice())?;
    rt.stdout().write_all(lines.as_slice())?;
    Ok(())
}

fn main(rt: HostRuntime) -> anyhow::Result<()> {
    run(&rt)
}
