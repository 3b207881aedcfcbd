// The fault injector's rules.
use super::{Step, bytes, fault, play, strike_all};
use layers::buffer::WriteBuffer;
use layers::fault::{Fault, FaultKind};
use layers::injector::FaultInjector;
use stack::flat::bytes::ByteMemory;
use stack::located::first_at;
use std::alloc::Global;
use std::process::Abort;
use std::test::Fail;

// A memory of size 1 with faults at bank 70, where 0x0F is kept in each byte.
fn faulty(
    rt: &impl Abort,
    heap: Global,
    faults: &[Fault],
) -> Result<FaultInjector<ByteMemory>, Fail> {
    let mut pile = FaultInjector::new(bytes(heap, 1)?);
    play(rt, &mut pile, &[Step::Put((70, 0, 0), 64, 0x0F)])?;
    strike_all(&mut pile, faults)?;
    Ok(pile)
}

// Faults of one byte act in the table's order, and on no other.
#[test]
fn order(rt: HostRuntime) -> Result<(), Fail> {
    let flip = fault(0, FaultKind::Flip, 0x3C, 0);
    let one = fault(0, FaultKind::StuckAtOne, 0x30, 0);
    let zero = fault(0, FaultKind::StuckAtZero, 0x11, 0);
    let heap = rt.alloc();
    play(
        &rt,
        &mut faulty(&rt, heap, &[flip, one, zero])?,
        &[Step::Shows((70, 0, 0), 1, 0x22)],
    )?;
    play(
        &rt,
        &mut faulty(&rt, heap, &[zero, one, flip])?,
        &[Step::Shows((70, 0, 0), 1, 0x02)],
    )?;
    play(
        &rt,
        &mut faulty(&rt, heap, &[one, zero, flip])?,
        &[
            Step::Shows((70, 0, 0), 1, 0x12),
            Step::Shows((70, 0, 1), 63, 0x0F),
            Step::Shows((71, 0, 0), 64, 0),
        ],
    )
}

// A fault acts once its delay has gone by.
const DELAYS: [Step; 14] = [
    Step::Shows((70, 0, 0), 1, 0x0E),
    Step::Shows((70, 0, 1), 2, 0x0F),
    Step::Settle,
    Step::Shows((70, 0, 1), 2, 0x0F),
    Step::Pass(1),
    Step::Shows((70, 0, 0), 2, 0x0E),
    Step::Shows((70, 0, 2), 1, 0x0F),
    Step::Pass(253),
    Step::Shows((70, 0, 0), 2, 0x0E),
    Step::Shows((70, 0, 2), 1, 0x0F),
    Step::Pass(1),
    Step::Shows((70, 0, 0), 3, 0x0E),
    Step::Pass(9),
    Step::Shows((70, 0, 0), 3, 0x0E),
];

#[test]
fn delays(rt: HostRuntime) -> Result<(), Fail> {
    let faults = [
        fault(0, FaultKind::Flip, 1, 0),
        fault(1, FaultKind::Flip, 1, 1),
        fault(2, FaultKind::StuckAtZero, 1, 255),
    ];
    play(&rt, &mut faulty(&rt, rt.alloc(), &faults)?, &DELAYS)
}

// A put removes the flips that act on its bytes, and no other fault; later ones move up.
const REMOVED: [Step; 6] = [
    Step::Put((70, 0, 3), 2, 0x0F),
    Step::Shows((70, 0, 3), 1, 0x0F),
    Step::Shows((70, 0, 4), 1, 0x8F),
    Step::Shows((70, 0, 5), 1, 0x0E),
    Step::Pass(1),
    Step::Shows((70, 0, 4), 1, 0x8E),
];

#[test]
fn removed(rt: HostRuntime) -> Result<(), Fail> {
    let faults = [
        fault(3, FaultKind::Flip, 1, 0),
        fault(4, FaultKind::Flip, 1, 1),
        fault(4, FaultKind::StuckAtOne, 0x80, 0),
        fault(5, FaultKind::Flip, 1, 0),
    ];
    let mut pile = faulty(&rt, rt.alloc(), &faults)?;
    play(&rt, &mut pile, &REMOVED)?;
    let left = pile.faults();
    assert!(rt; left.len() == 3);
    assert!(rt;
        left[0].byte == 4 && left[0].delay == 0 && left[1].mask == 0x80 && left[2].byte == 5
    );
    assert!(rt; first_at(left, 70, 0) == Some(0));
    assert!(rt; pile.first_fault(70, 0) == Some(0));
    assert!(rt; pile.first_fault(70, 1) == None);
    Ok(())
}

// Below a buffer a flip stays until its line comes down.
#[test]
fn below_a_buffer(rt: HostRuntime) -> Result<(), Fail> {
    let mut buffer = WriteBuffer::new(faulty(&rt, rt.alloc(), &[fault(0, FaultKind::Flip, 1, 0)])?);
    play(
        &rt,
        &mut buffer,
        &[
            Step::Put((70, 0, 0), 64, 8),
            Step::Shows((70, 0, 0), 64, 8),
            Step::Settle,
        ],
    )?;
    play(&rt, &mut buffer, &[Step::Shows((70, 0, 0), 64, 8)])?;
    assert!(rt; buffer.into_below().faults().len() == 0);
    Ok(())
}

// Above a buffer, the put of the line removes it at once.
#[test]
fn above_a_buffer(rt: HostRuntime) -> Result<(), Fail> {
    let mut pile = FaultInjector::new(WriteBuffer::new(bytes(rt.alloc(), 1)?));
    pile.strike(fault(0, FaultKind::Flip, 1, 0))?;
    play(
        &rt,
        &mut pile,
        &[Step::Shows((70, 0, 0), 1, 1), Step::Put((70, 0, 0), 64, 8)],
    )?;
    assert!(rt; pile.faults().len() == 0);
    assert!(rt; pile.into_below().buffered().len() == 1);
    Ok(())
}
