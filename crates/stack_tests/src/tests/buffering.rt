// The write buffer's rules.
use super::{Step, bytes, place, play};
use layers::buffer::WriteBuffer;
use stack::flat::bytes::ByteMemory;
use stack::located::first_at;
use stack::memory::Stack;
use std::alloc::Global;
use std::process::Abort;
use std::test::Fail;

// A buffer with 16 lines, of banks 64 to 71 and indexes 0 and 1, over a memory of size 3.
fn full(rt: &impl Abort, heap: Global) -> Result<WriteBuffer<ByteMemory>, Fail> {
    let mut buffer = WriteBuffer::new(bytes(heap, 3)?);
    for index in 0..2 {
        for bank in 64..72 {
            buffer.put(place((bank, index, 0)), &[9; 64])?;
        }
    }
    assert!(rt; buffer.buffered().len() == 16);
    Ok(buffer)
}

// The 17th line goes down, and so does a part of a line that is not buffered.
const MORE: [Step; 6] = [
    Step::Put((64, 2, 0), 64, 17),
    Step::Put((65, 2, 0), 63, 18),
    Step::Put((64, 0, 0), 64, 10),
    Step::Shows((64, 0, 0), 64, 10),
    Step::Shows((64, 2, 0), 64, 17),
    Step::Shows((65, 2, 0), 63, 18),
];

const MORE_BELOW: [Step; 4] = [
    Step::Shows((64, 0, 0), 64, 0),
    Step::Shows((71, 1, 0), 64, 0),
    Step::Shows((64, 2, 0), 64, 17),
    Step::Shows((65, 2, 0), 63, 18),
];

#[test]
fn seventeenth(rt: HostRuntime) -> Result<(), Fail> {
    let mut buffer = full(&rt, rt.alloc())?;
    play(&rt, &mut buffer, &MORE)?;
    assert!(rt; buffer.buffered().len() == 16);
    play(&rt, &mut buffer.into_below(), &MORE_BELOW)
}

// A line put again keeps its turn.
#[test]
fn turns(rt: HostRuntime) -> Result<(), Fail> {
    let mut buffer = full(&rt, rt.alloc())?;
    play(&rt, &mut buffer, &[Step::Put((66, 0, 0), 64, 66)])?;
    let lines = buffer.buffered();
    assert!(rt; lines.len() == 16);
    assert!(rt; lines[2].bank == 66 && lines[2].index == 0 && lines[2].bytes[63] == 66);
    assert!(rt; lines[15].bank == 71 && lines[15].index == 1);
    assert!(rt; first_at(lines, 66, 0) == Some(2));
    assert!(rt; first_at(lines, 66, 2) == None);
    Ok(())
}

// A settle puts every line down and lets go of it.
#[test]
fn settled(rt: HostRuntime) -> Result<(), Fail> {
    let mut buffer = full(&rt, rt.alloc())?;
    play(
        &rt,
        &mut buffer,
        &[Step::Put((66, 0, 60), 4, 66), Step::Settle],
    )?;
    assert!(rt; buffer.buffered().len() == 0);
    play(
        &rt,
        &mut buffer.into_below(),
        &[
            Step::Shows((66, 0, 0), 60, 9),
            Step::Shows((66, 0, 60), 4, 66),
            Step::Shows((71, 1, 0), 64, 9),
            Step::Shows((71, 2, 0), 64, 0),
        ],
    )
}

// Part of a buffered line changes it. Banks below 64 are never buffered, nor are parts of lines that are not.
const PARTS: [Step; 9] = [
    Step::Put((63, 0, 0), 64, 1),
    Step::Put((65, 0, 1), 63, 2),
    Step::Put((64, 0, 0), 64, 3),
    Step::Put((64, 0, 63), 1, 4),
    Step::Put((64, 0, 0), 2, 5),
    Step::Shows((64, 0, 0), 2, 5),
    Step::Shows((64, 0, 2), 61, 3),
    Step::Shows((64, 0, 63), 1, 4),
    Step::Shows((65, 0, 0), 1, 0),
];

const PARTS_BELOW: [Step; 3] = [
    Step::Shows((63, 0, 0), 64, 1),
    Step::Shows((65, 0, 1), 63, 2),
    Step::Shows((64, 0, 0), 64, 0),
];

#[test]
fn parts(rt: HostRuntime) -> Result<(), Fail> {
    let mut buffer = WriteBuffer::new(bytes(rt.alloc(), 1)?);
    play(&rt, &mut buffer, &PARTS)?;
    assert!(rt; buffer.buffered().len() == 1);
    play(&rt, &mut buffer.into_below(), &PARTS_BELOW)
}
