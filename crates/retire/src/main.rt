// Retires two failing banks of a board, one after the other, and shows that every line is kept.
#![tactic(auto)]

mod text;

use board::board::Board;
use codec::word::Line;
use layers::buffer::WriteBuffer;
use layers::fault::{Fault, FaultKind};
use layers::injector::FaultInjector;
use rehearsal::rehearse;
use rules::calls::{Answer, Call, Outcome};
use stack::flat::bytes::ByteMemory;
use stack::memory::Stack;
use std::alloc::Global;
use std::array;
use text::Told;

// The banks that fail, after one interval and after two.
const FIRST: usize = 5;

const SECOND: usize = 9;

fn main(rt: HostRuntime) -> anyhow::Result<()> {
    run(&rt)
}

fn run(rt: &HostRuntime) -> anyhow::Result<()> {
    let lines = lines_to_store(rt.alloc())?;
    let mut board = Board::format(WriteBuffer::new(failing_memory(rt.alloc())?));
    fill(rt, &mut board, lines.as_slice())?;
    board.pass();
    println!(rt; "an interval goes by: bank {FIRST} fails, and a bit of bank 20 flips")?;
    print_read(rt, &board, FIRST)?;
    print_read(rt, &board, 20)?;
    print_read(rt, &board, 21)?;
    retire(rt, &mut board, FIRST)?;
    board.pass();
    println!(rt; "another interval goes by: bank {SECOND} fails")?;
    print_read(rt, &board, SECOND)?;
    print_read(rt, &board, FIRST)?;
    retire(rt, &mut board, SECOND)?;
    let same = count_same(&board, lines.as_slice());
    println!(rt; "{same} of 64 lines are read back as stored")?;
    print_rehearsal(rt, lines.as_slice())
}

// A line of 64 bytes for each of 64 addresses.
fn lines_to_store(heap: Global) -> anyhow::Result<Vec<Line>> {
    let mut lines = Vec::new(heap);
    for address in 0..64u8 {
        lines.push(array::from_fn(|k| address.wrapping_mul(3) ^ k as u8))?;
    }
    Ok(lines)
}

// A memory in which bytes of one bank read as ones after one interval, those of another after two, and one bit flips.
fn failing_memory(heap: Global) -> anyhow::Result<FaultInjector<ByteMemory>> {
    let bytes = vec![in heap; 0u8; 4608]?;
    let mut memory = FaultInjector::new(ByteMemory::new(bytes));
    for byte in 0..30 {
        strike(&mut memory, FIRST, byte, FaultKind::StuckAtOne, 1)?;
        strike(&mut memory, SECOND, byte, FaultKind::StuckAtOne, 2)?;
    }
    strike(&mut memory, 20, 7, FaultKind::Flip, 1)?;
    Ok(memory)
}

fn strike(
    memory: &mut FaultInjector<ByteMemory>,
    bank: usize,
    byte: usize,
    kind: FaultKind,
    delay: u8,
) -> anyhow::Result<()> {
    let fault = Fault {
        bank,
        index: 0,
        byte,
        kind,
        mask: 0x80,
        delay,
    };
    memory.strike(fault)?;
    Ok(())
}

// Stores a line at every address, and counts the calls accepted: in a loop, since a filter that stores would hide the calls.
fn fill<S: Stack>(rt: &HostRuntime, board: &mut Board<S>, lines: &[Line]) -> anyhow::Result<()> {
    let mut stored: usize = 0;
    for (address, line) in lines.iter().enumerate() {
        if board.write(address, line).is_ok() {
            stored = stored.saturating_add(1);
        }
    }
    board.settle();
    println!(rt; "{stored} lines are stored")?;
    Ok(())
}

fn print_read<S: Stack>(rt: &HostRuntime, board: &Board<S>, address: usize) -> anyhow::Result<()> {
    let mut line = [0; 64];
    let told = Told(board.read(address, &mut line));
    println!(rt; "the line at address {address} is {told}")?;
    Ok(())
}

fn retire<S: Stack>(rt: &HostRuntime, board: &mut Board<S>, bank: usize) -> anyhow::Result<()> {
    let mut work = [0; 4096];
    match board.mark(bank, &mut work) {
        Ok(spare) => println!(rt; "bank {bank} is retired; bank {spare} has its lines")?,
        Err(refusal) => println!(rt; "bank {bank} cannot be retired: {refusal}")?,
    }
    Ok(())
}

// How many lines are read back as they were stored.
fn count_same<S: Stack>(board: &Board<S>, lines: &[Line]) -> usize {
    let is_same = |address: usize, stored: &Line| {
        let mut line = [0; 64];
        board.read(address, &mut line).is_ok() && line == *stored
    };
    lines
        .iter()
        .enumerate()
        .filter(|(address, stored)| is_same(*address, stored))
        .count()
}

// The same calls as a list, on a board with a write buffer and on one without.
fn print_rehearsal(rt: &HostRuntime, lines: &[Line]) -> anyhow::Result<()> {
    let heap = rt.alloc();
    let mut calls = Vec::new(heap);
    for (address, line) in lines.iter().enumerate() {
        calls.push(Call::Write {
            address,
            line: line.as_slice(),
        })?;
    }
    calls.push(Call::Settle)?;
    for bank in [FIRST, SECOND] {
        calls.push(Call::Pass)?;
        calls.push(Call::Read {
            address: bank,
            length: 64,
        })?;
        calls.push(Call::Mark { bank, length: 4096 })?;
    }
    let count = calls.len();
    let mut answers = vec![in heap; Ok(Outcome::Done); count]?;
    let mut replies = vec![in heap; Ok(Outcome::Done); count]?;
    let buffered = WriteBuffer::new(failing_memory(heap)?);
    let plain = failing_memory(heap)?;
    let both = rehearse(
        buffered,
        calls.as_slice(),
        answers.as_mut_slice(),
        plain,
        calls.as_slice(),
        replies.as_mut_slice(),
    );
    let accepted = count_accepted(answers.as_slice());
    let others = count_accepted(replies.as_slice());
    println!(rt;
        "{count} calls rehearsed with a write buffer and without: {accepted} and {others} accepted"
    )?;
    if both.equal {
        println!(rt; "the two boards hand out the same lines")?;
    } else {
        println!(rt; "the two boards differ")?;
    }
    Ok(())
}

fn count_accepted(answers: &[Answer]) -> usize {
    answers.iter().filter(|answer| answer.is_ok()).count()
}
