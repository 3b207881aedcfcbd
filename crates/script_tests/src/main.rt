// Runs scripts whose whole output is known, and compares it byte for byte.
#![tactic(auto)]

use script::run;
use std::alloc::AllocError;
use std::{env, fs};

fn main(rt: HostRuntime) -> anyhow::Result<()> {
    run_all(&rt)
}

// Each argument NAME stands for a script NAME.in and its output NAME.out.
fn run_all(rt: &HostRuntime) -> anyhow::Result<()> {
    for name in env::args(rt)?.skip(1) {
        let name = name.as_str();
        let verdict = if as_expected(rt, name)? {
            "as expected"
        } else {
            "OTHERWISE"
        };
        println!(rt; "{name}: {verdict}")?;
    }
    Ok(())
}

fn as_expected(rt: &HostRuntime, name: &str) -> anyhow::Result<bool> {
    let input = fs::read(rt, format!(in rt.alloc(); "{name}.in")?)?;
    let expected = fs::read(rt, format!(in rt.alloc(); "{name}.out")?)?;
    let output = run(rt.alloc(), input.as_slice())?;
    Ok(output.as_slice() == expected.as_slice())
}
