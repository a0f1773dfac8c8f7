//! Runs a live controller: reads lines from standard input, and answers each before the next is read.
#![tactic(auto)]

ghost use Rattle.std.specs.Prelude.{◌≡◌};
ghost use Rattle.model.specs.Controller as C;
ghost use Rattle.controller.specs.Views.{live_view};
ghost use Rattle.axes.specs.Starts.{bank_of, ready, armed};

use controller::{Live, Parked};
use drives::counting::Counting;
use session::{answer_line, counting};
use std::io::{BufRead, BufReader, Write};

/// Over a counting drive at rate 2 from 0, with `IOK2,1` set on X and no contact on.
fn start() -> Live<Counting>
    ensures { C.live (live_view bank_of result) ≡ armed ready 0 }
{
    let mut parked = Parked::new(counting(2, 0));
    let _ = parked.set(b"IOK2,1");
    parked.arm(0)
}

fn run(rt: &HostRuntime) -> anyhow::Result<()> {
    let mut live = start();
    let mut out = Vec::new(rt.alloc());
    for line in BufReader::new(rt.alloc(), rt.stdin())?.split(rt.alloc(), b'\n') {
        answer_line(&mut live, line?.as_slice(), &mut out)?;
        rt.stdout().write_all(out.as_slice())?;
        out.clear();
    }
    let _ = live.park();
    Ok(())
}

fn main(rt: HostRuntime) -> anyhow::Result<()> {
    run(&rt)
}
