// Every refusal at its edges, and calls that change nothing.
use super::{Step, bytes, fault, play, refused, strike_all, words};
use layers::buffer::WriteBuffer;
use layers::fault::{Fault, FaultKind};
use layers::injector::FaultInjector;
use stack::flat::bytes::ByteMemory;
use stack::flat::words::WordMemory;
use stack::memory::Stack;
use stack::refusal::Refusal;
use std::process::Abort;
use std::test::Fail;

const MAX: usize = usize::MAX;

// Pieces of a pile of size 2 at the edges.
const EDGES: [Step; 17] = [
    Step::Refused((72, 0, 0), 1),
    Step::Refused((MAX, 0, 0), 1),
    Step::Refused((0, 2, 0), 1),
    Step::Refused((71, MAX, 0), 64),
    Step::Refused((71, 1, 64), 1),
    Step::Refused((71, 1, MAX), 1),
    Step::Refused((70, 0, MAX), 64),
    Step::Refused((MAX, MAX, MAX), 64),
    Step::Refused((70, 0, 0), 0),
    Step::Refused((70, 0, 63), 2),
    Step::Refused((70, 0, 0), 65),
    Step::Refused((70, 0, 1), 64),
    Step::Refused((70, 2, 0), 64),
    Step::Put((71, 1, 63), 1, 7),
    Step::Put((0, 0, 0), 64, 8),
    Step::Shows((71, 1, 63), 1, 7),
    Step::Shows((0, 0, 0), 64, 8),
];

#[test]
fn pieces(rt: HostRuntime) -> Result<(), Fail> {
    let heap = rt.alloc();
    play(&rt, &mut bytes(heap, 2)?, &EDGES)?;
    play(&rt, &mut words(heap, 2)?, &EDGES)
}

// A refused put is not buffered, and removes no fault.
#[test]
fn pieces_of_layers(rt: HostRuntime) -> Result<(), Fail> {
    let mut pile = FaultInjector::new(WriteBuffer::new(bytes(rt.alloc(), 2)?));
    pile.strike(fault(63, FaultKind::Flip, 1, 0))?;
    play(&rt, &mut pile, &EDGES)?;
    assert!(rt; pile.faults().len() == 1);
    assert!(rt; pile.into_below().buffered().len() == 0);
    Ok(())
}

// The refusals of a fault, in their order, before and after 64 faults stand.
#[test]
fn strikes(rt: HostRuntime) -> Result<(), Fail> {
    let mut pile = FaultInjector::new(bytes(rt.alloc(), 2)?);
    let good = fault(63, FaultKind::Flip, 1, 0);
    refuses_strikes(&rt, &mut pile, good)?;
    strike_all(&mut pile, &[good; 64])?;
    refused(&rt, pile.strike(good), 12)?;
    refuses_strikes(&rt, &mut pile, good)?;
    assert!(rt; pile.faults().len() == 64);
    Ok(())
}

fn refuses_strikes<S: Stack>(
    rt: &impl Abort,
    pile: &mut FaultInjector<S>,
    good: Fault,
) -> Result<(), Fail> {
    let outside = [
        Fault {
            bank: 72,
            mask: 0,
            ..good
        },
        Fault { bank: MAX, ..good },
        Fault { index: 2, ..good },
        Fault { byte: 64, ..good },
        Fault { byte: MAX, ..good },
    ];
    for fault in outside {
        refused(rt, pile.strike(fault), 9)?;
    }
    refused(rt, pile.strike(Fault { mask: 0, ..good }), 11)
}

// A length is taken where it fits a size from 1 to 1,024; the tables below have 0 for one that is refused, as a memory of that length has it.
fn sized(rt: &impl Abort, answer: Result<usize, Refusal>, size: usize) -> Result<(), Fail> {
    let expected = if size == 0 { Err(10) } else { Ok(size) };
    assert_eq!(rt; answer.map_err(|why| why.number()), expected);
    Ok(())
}

#[test]
fn lengths(rt: HostRuntime) -> Result<(), Fail> {
    let cases = [
        (0, 0),
        (1151, 0),
        (1152, 1),
        (1153, 0),
        (1152 * 1024, 1024),
        (1152 * 1025, 0),
    ];
    for (length, size) in cases {
        sized(&rt, WordMemory::check_length(length), size)?;
        sized(&rt, ByteMemory::check_length(4 * length), size)?;
    }
    sized(&rt, ByteMemory::check_length(4607), 0)?;
    sized(&rt, ByteMemory::check_length(MAX), 0)?;
    sized(&rt, WordMemory::check_length(MAX), 0)
}

// Made on a refused length, a memory has size 0 and refuses every piece.
#[test]
fn refused_lengths(rt: HostRuntime) -> Result<(), Fail> {
    let mut small = ByteMemory::new(vec![in rt.alloc(); 0u8; 4609]?);
    assert!(rt; small.size() == 0);
    play(&rt, &mut small, &[Step::Refused((0, 0, 0), 1)])?;
    let mut short = WordMemory::new(vec![in rt.alloc(); 0u32; 1151]?);
    assert!(rt; short.size() == 0);
    play(&rt, &mut short, &[Step::Refused((0, 0, 0), 1)])
}

// The numbers by which a host knows the refusals.
#[test]
fn numbers(rt: HostRuntime) {
    let all = [
        Refusal::AddressOutOfRange,
        Refusal::LineLength,
        Refusal::BankOutOfRange,
        Refusal::BankAlreadyMarked,
        Refusal::NoSpareLeft,
        Refusal::WorkBufferShort,
        Refusal::PartnerUncorrectable {
            address: 1,
            partner: 2,
        },
        Refusal::RebuildFailed { address: 1 },
        Refusal::PlaceOutOfRange,
        Refusal::LengthFitsNoSize,
        Refusal::EmptyMask,
        Refusal::FaultTableFull,
        Refusal::LogFull,
        Refusal::LineUnreadable,
    ];
    for (i, refusal) in all.iter().enumerate() {
        assert!(rt; usize::from(refusal.number()) == i + 1);
    }
}
