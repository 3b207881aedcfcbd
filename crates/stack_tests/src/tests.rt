// What the tests share: plays of steps on a pile.
use layers::fault::{Fault, FaultKind};
use layers::injector::FaultInjector;
use stack::flat::bytes::ByteMemory;
use stack::flat::words::WordMemory;
use stack::memory::Stack;
use stack::place::Place;
use stack::refusal::Refusal;
use std::alloc::Global;
use std::process::Abort;
use std::test::Fail;

mod buffering;
mod edges;
mod faults;
mod free;
mod memories;
mod piles;

// One step of a play: data, since one table of steps is played on piles of several types. A place is a bank, an index and a byte: a constant
// calls no function that would name them.
#[derive(Clone, Copy)]
enum Step {
    // so many bytes of one value are put from a place on
    Put((usize, usize, usize), usize, u8),
    // a fetch and a put of so many bytes from a place on are refused, and the buffer stays
    Refused((usize, usize, usize), usize),
    // so many bytes from a place on show one value
    Shows((usize, usize, usize), usize, u8),
    Settle,
    // so many intervals go by
    Pass(u8),
}

// The call was refused, by that number.
fn refused(rt: &impl Abort, answer: Result<(), Refusal>, number: u8) -> Result<(), Fail> {
    assert_eq!(rt; answer.map_err(|why| why.number()), Err(number));
    Ok(())
}

// Every byte has that value.
fn all(rt: &impl Abort, bytes: &[u8], value: u8) {
    for byte in bytes {
        assert!(rt; *byte == value);
    }
}

// The place of a step.
fn place((bank, index, byte): (usize, usize, usize)) -> Place {
    Place { bank, index, byte }
}

fn shows<S: Stack>(
    rt: &impl Abort,
    stack: &S,
    at: Place,
    into: &mut [u8],
    value: u8,
) -> Result<(), Fail> {
    stack.fetch(at, into)?;
    all(rt, into, value);
    Ok(())
}

fn refuses<S: Stack>(
    rt: &impl Abort,
    stack: &mut S,
    at: Place,
    into: &mut [u8],
) -> Result<(), Fail> {
    into.fill(0xEE);
    refused(rt, stack.put(at, into), 9)?;
    refused(rt, stack.fetch(at, into), 9)?;
    all(rt, into, 0xEE);
    Ok(())
}

fn pass<S: Stack>(stack: &mut S, count: u8) {
    for _ in 0..count {
        stack.pass();
    }
}

fn take<S: Stack>(rt: &impl Abort, stack: &mut S, step: Step) -> Result<(), Fail> {
    let mut bytes = [0u8; 65];
    match step {
        Step::Put(at, count, value) => {
            assert!(rt; count <= 65);
            bytes.fill(value);
            stack.put(place(at), &bytes[0..count])?;
            Ok(())
        }
        Step::Refused(at, count) => {
            assert!(rt; count <= 65);
            refuses(rt, stack, place(at), &mut bytes[0..count])
        }
        Step::Shows(at, count, value) => {
            assert!(rt; count <= 65);
            shows(rt, stack, place(at), &mut bytes[0..count], value)
        }
        Step::Settle => {
            stack.settle();
            Ok(())
        }
        Step::Pass(count) => {
            pass(stack, count);
            Ok(())
        }
    }
}

fn play<S: Stack>(rt: &impl Abort, stack: &mut S, steps: &[Step]) -> Result<(), Fail> {
    for step in steps {
        take(rt, stack, *step)?;
    }
    Ok(())
}

// Memories of zero bytes.
fn bytes(heap: Global, size: u8) -> Result<ByteMemory, Fail> {
    Ok(ByteMemory::new(vec![in heap; 0u8; 4608 * usize::from(size)]?))
}

fn words(heap: Global, size: u8) -> Result<WordMemory, Fail> {
    Ok(WordMemory::new(vec![in heap; 0u32; 1152 * usize::from(size)]?))
}

// A fault at bank 70, index 0.
fn fault(byte: usize, kind: FaultKind, mask: u8, delay: u8) -> Fault {
    Fault {
        bank: 70,
        index: 0,
        byte,
        kind,
        mask,
        delay,
    }
}

fn strike_all<S: Stack>(pile: &mut FaultInjector<S>, faults: &[Fault]) -> Result<(), Fail> {
    for fault in faults {
        pile.strike(*fault)?;
    }
    Ok(())
}
