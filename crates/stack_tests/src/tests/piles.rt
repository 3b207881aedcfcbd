// Layers in every order over both memories.
use super::{Step, bytes, play, words};
use layers::buffer::WriteBuffer;
use layers::injector::FaultInjector;
use std::test::Fail;

// What is put is shown, whatever goes by, in a pile of size 2 without faults.
const PLAY: [Step; 22] = [
    Step::Put((3, 1, 0), 64, 0x33),
    Step::Put((70, 0, 0), 64, 0x70),
    Step::Put((70, 0, 10), 3, 0x0A),
    Step::Put((71, 1, 63), 1, 0x71),
    Step::Pass(3),
    Step::Shows((3, 1, 0), 64, 0x33),
    Step::Shows((3, 0, 0), 64, 0),
    Step::Shows((70, 0, 0), 10, 0x70),
    Step::Shows((70, 0, 10), 3, 0x0A),
    Step::Shows((70, 0, 13), 51, 0x70),
    Step::Shows((71, 1, 0), 63, 0),
    Step::Shows((71, 1, 63), 1, 0x71),
    Step::Settle,
    Step::Shows((70, 0, 9), 1, 0x70),
    Step::Shows((70, 0, 10), 3, 0x0A),
    Step::Shows((71, 1, 63), 1, 0x71),
    Step::Put((70, 0, 10), 3, 0x70),
    Step::Put((70, 1, 0), 64, 0x17),
    Step::Settle,
    Step::Pass(1),
    Step::Shows((70, 0, 0), 64, 0x70),
    Step::Shows((70, 1, 0), 64, 0x17),
];

#[test]
fn over_bytes(rt: HostRuntime) -> Result<(), Fail> {
    let heap = rt.alloc();
    play(&rt, &mut bytes(heap, 2)?, &PLAY)?;
    play(
        &rt,
        &mut WriteBuffer::new(FaultInjector::new(bytes(heap, 2)?)),
        &PLAY,
    )?;
    play(
        &rt,
        &mut FaultInjector::new(WriteBuffer::new(bytes(heap, 2)?)),
        &PLAY,
    )?;
    play(
        &rt,
        &mut WriteBuffer::new(WriteBuffer::new(bytes(heap, 2)?)),
        &PLAY,
    )?;
    play(
        &rt,
        &mut FaultInjector::new(FaultInjector::new(bytes(heap, 2)?)),
        &PLAY,
    )
}

#[test]
fn over_words(rt: HostRuntime) -> Result<(), Fail> {
    let heap = rt.alloc();
    play(&rt, &mut words(heap, 2)?, &PLAY)?;
    play(
        &rt,
        &mut WriteBuffer::new(FaultInjector::new(words(heap, 2)?)),
        &PLAY,
    )?;
    play(
        &rt,
        &mut FaultInjector::new(WriteBuffer::new(words(heap, 2)?)),
        &PLAY,
    )?;
    play(&rt, &mut FaultInjector::new(words(heap, 2)?), &PLAY)?;
    play(&rt, &mut WriteBuffer::new(words(heap, 2)?), &PLAY)
}
