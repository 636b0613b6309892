//! `loomreport`: reads a slip from standard input and prints its report.
#![tactic(auto)]

use report::{enough, slip_report};
use std::io;
use std::io::Read;

/// The bytes of standard input, as many as are enough: an input of any length is reported in bounded memory.
fn input(rt: &HostRuntime) -> io::Result<Vec<u8>> {
    let mut slip = Vec::new(rt.alloc());
    let mut source = rt.stdin().take(enough());
    source.read_to_end(&mut slip)?;
    Ok(slip)
}

fn run(rt: &HostRuntime) -> anyhow::Result<()> {
    let slip = input(rt)?;
    let text = slip_report(rt.alloc(), slip.as_slice())?;
    rt.print(text)?;
    Ok(())
}

fn main(rt: HostRuntime) -> anyhow::Result<()> {
    run(&rt)
}
