// Makes the codeword of a line, changes it as told, and says what decoding it gives.
#![tactic(auto)]

mod input;
mod shown;
mod text;

use codec::code::decode;
use codec::word::{FullCheck, Word};
use input::{read_change, read_line};
use shown::ShownWord;
use std::io;
use text::{Hex, Outcome};

fn main(rt: HostRuntime) -> anyhow::Result<()> {
    run(&rt)
}

fn run(rt: &HostRuntime) -> anyhow::Result<()> {
    let input = io::read_to_string(rt.alloc(), rt.stdin())?;
    let mut lines = input.as_str().lines();
    let first = lines.next().unwrap_or("");
    let line = match read_line(first.as_bytes()) {
        Ok(line) => line,
        Err(problem) => {
            println!(rt; "line 1: {problem}")?;
            return Ok(());
        }
    };
    let mut word = ShownWord::of(&line);
    let check = word.check;
    for (number, change) in (2_usize..).zip(lines) {
        match read_change(change.as_bytes()) {
            Ok((symbol, xor)) => word.change(symbol, xor),
            Err(problem) => println!(rt; "line {number}: {problem}")?,
        }
    }
    print_word(rt, &word, &check)
}

// The check, the shown word, and what decoding gives in full and in short.
fn print_word(rt: &HostRuntime, word: &ShownWord, check: &FullCheck) -> anyhow::Result<()> {
    let check = Hex(check);
    println!(rt; "check {check}")?;
    let line = Hex(&word.line);
    let shown = Hex(&word.check);
    println!(rt; "shown {line}{shown}")?;
    print_outcome(rt, "full", &word.full())?;
    print_outcome(rt, "short", &word.short())
}

fn print_outcome(rt: &HostRuntime, name: &str, word: &Word) -> anyhow::Result<()> {
    let mut line = [0; 64];
    let outcome = Outcome(decode(word, &mut line));
    println!(rt; "{name} word: {outcome}")?;
    if outcome.0.is_ok() {
        let line = Hex(&line);
        println!(rt; "{name} line: {line}")?;
    }
    Ok(())
}
