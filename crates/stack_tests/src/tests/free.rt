// A further stack that shows arbitrary bytes where the meaning leaves them free, under both layers.
use super::{Step, bytes, fault, play};
use layers::buffer::WriteBuffer;
use layers::fault::FaultKind;
use layers::injector::FaultInjector;
use std::alloc::Global;
use std::test::Fail;
use unsteady::Unsteady;

// With the noise 0x5A, a zero byte is shown as 0x5A and bytes that were put as 0x5A ^ 0x0E.
fn unsteady(heap: Global) -> Result<Unsteady, Fail> {
    Ok(Unsteady::new(bytes(heap, 1)?, bytes(heap, 1)?, 0x5A))
}

// It keeps what is put, and shows something else; a settle and a pass change all that is shown.
const ALONE: [Step; 8] = [
    Step::Shows((6, 0, 0), 64, 0x5A),
    Step::Put((5, 0, 0), 64, 7),
    Step::Shows((5, 0, 0), 64, 0x54),
    Step::Shows((6, 0, 0), 64, 0x5A),
    Step::Settle,
    Step::Shows((6, 0, 0), 64, 0x5B),
    Step::Pass(1),
    Step::Shows((6, 0, 0), 64, 0xCA),
];

#[test]
fn alone(rt: HostRuntime) -> Result<(), Fail> {
    let mut stack = unsteady(rt.alloc())?;
    play(&rt, &mut stack, &ALONE)?;
    play(
        &rt,
        &mut stack.into_kept(),
        &[Step::Shows((5, 0, 0), 64, 7), Step::Shows((6, 0, 0), 64, 0)],
    )
}

// A buffered line is shown as buffered however the memory below shows it.
const BUFFERED: [Step; 9] = [
    Step::Put((5, 0, 0), 64, 7),
    Step::Put((71, 0, 0), 64, 9),
    Step::Put((71, 0, 63), 1, 6),
    Step::Pass(1),
    Step::Shows((71, 0, 0), 63, 9),
    Step::Shows((71, 0, 63), 1, 6),
    Step::Settle,
    Step::Pass(1),
    Step::Refused((71, 1, 0), 64),
];

const KEPT: [Step; 3] = [
    Step::Shows((5, 0, 0), 64, 7),
    Step::Shows((71, 0, 0), 63, 9),
    Step::Shows((71, 0, 63), 1, 6),
];

#[test]
fn under_buffer_and_injector(rt: HostRuntime) -> Result<(), Fail> {
    let mut pile = WriteBuffer::new(FaultInjector::new(unsteady(rt.alloc())?));
    play(&rt, &mut pile, &BUFFERED)?;
    play(&rt, &mut pile.into_below().into_below().into_kept(), &KEPT)
}

#[test]
fn under_injector_and_buffer(rt: HostRuntime) -> Result<(), Fail> {
    let mut pile = FaultInjector::new(WriteBuffer::new(unsteady(rt.alloc())?));
    play(&rt, &mut pile, &BUFFERED)?;
    play(&rt, &mut pile.into_below().into_below().into_kept(), &KEPT)
}

// Faults act on what is shown, whatever that is, and never on what is kept.
#[test]
fn faulty(rt: HostRuntime) -> Result<(), Fail> {
    let mut pile = FaultInjector::new(unsteady(rt.alloc())?);
    play(&rt, &mut pile, &[Step::Put((70, 0, 0), 64, 7)])?;
    pile.strike(fault(0, FaultKind::StuckAtOne, 0xFF, 0))?;
    play(
        &rt,
        &mut pile,
        &[
            Step::Shows((70, 0, 0), 1, 0xFF),
            Step::Pass(1),
            Step::Shows((70, 0, 0), 1, 0xFF),
        ],
    )?;
    play(
        &rt,
        &mut pile.into_below().into_kept(),
        &[Step::Shows((70, 0, 0), 64, 7)],
    )
}
