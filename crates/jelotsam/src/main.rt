// Runs the script on standard input and writes its output to standard output.
#![tactic(auto)]

use script::{LONGEST, run};
use std::io::{Read, Write};

fn main(rt: HostRuntime) -> anyhow::Result<()> {
    run_stdin(&rt)
}

fn run_stdin(rt: &HostRuntime) -> anyhow::Result<()> {
    let mut input = Vec::new(rt.alloc());
    // One byte more than the longest script is enough to know that an input is too long.
    let mut source = rt.stdin().take(LONGEST as u64 + 1);
    source.read_to_end(&mut input)?;
    let output = run(rt.alloc(), input.as_slice())?;
    rt.stdout().write_all(output.as_slice())?;
    Ok(())
}
