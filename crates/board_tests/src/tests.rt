// What the tests share: boards, lines, and answers looked at.
use board::board::Board;
use codec::word::Finding;
use layers::fault::{Fault, FaultKind};
use layers::injector::FaultInjector;
use stack::flat::bytes::ByteMemory;
use stack::memory::Stack;
use stack::place::Place;
use stack::refusal::Refusal;
use std::alloc::Global;
use std::process::Abort;
use std::test::Fail;

mod errors;
mod places;
mod refusals;
mod stages;

// A memory of that size, with no fault.
fn memory(heap: Global, size: u8) -> Result<FaultInjector<ByteMemory>, Fail> {
    let bytes = vec![in heap; 0u8; 4608 * usize::from(size)]?;
    Ok(FaultInjector::new(ByteMemory::new(bytes)))
}

// A fault of the lowest bit, at index 0.
fn fault(bank: usize, byte: usize, kind: FaultKind, delay: u8) -> Fault {
    Fault {
        bank,
        index: 0,
        byte,
        kind,
        mask: 1,
        delay,
    }
}

// A line of its own for every seed.
fn line(seed: u8) -> [u8; 64] {
    let mut line = [0; 64];
    let mut value = seed;
    for byte in &mut line {
        value = value.wrapping_mul(5).wrapping_add(3);
        *byte = value;
    }
    line
}

// Stores its own line at each of so many addresses.
fn fill<S: Stack>(board: &mut Board<S>, count: u8) -> Result<(), Fail> {
    for seed in 0..count {
        board.write(usize::from(seed), &line(seed))?;
    }
    Ok(())
}

// The lines are read back as stored.
fn reads_back<S: Stack>(rt: &impl Abort, board: &Board<S>, count: u8) -> Result<(), Fail> {
    for seed in 0..count {
        let mut got = [0; 64];
        board.read(usize::from(seed), &mut got)?;
        assert!(rt; got == line(seed));
    }
    Ok(())
}

// The number of a refusal, or 0: what tests expect is a number.
fn number<T: Drop>(answer: Result<T, Refusal>) -> u8 {
    answer.err().map_or(0, |refusal| refusal.number())
}

// The number of what a read finds.
fn finding<S: Stack>(board: &Board<S>, address: usize) -> Result<u8, Fail> {
    let mut got = [0; 64];
    Ok(board.read(address, &mut got)?.number())
}

// So many bytes from a place on, as they are shown.
fn shown<S: Stack>(
    stack: &S,
    bank: usize,
    index: usize,
    byte: usize,
    into: &mut [u8],
) -> Result<(), Fail> {
    stack.fetch(Place { bank, index, byte }, into)?;
    Ok(())
}
