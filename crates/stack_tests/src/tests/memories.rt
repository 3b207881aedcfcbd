// Where the bytes of a memory lie.
use super::{bytes, place, words};
use stack::memory::Stack;
use std::test::Fail;

// In order of bank, index, byte.
#[test]
fn bytes_in_order(rt: HostRuntime) -> Result<(), Fail> {
    let mut memory = bytes(rt.alloc(), 3)?;
    memory.put(place((2, 1, 5)), &[0xA0, 0xA1])?;
    memory.put(place((71, 2, 63)), &[0xFF])?;
    let bytes = memory.into_inner();
    assert!(rt; bytes.len() == 13824);
    assert!(rt; bytes[452] == 0 && bytes[453] == 0xA0 && bytes[454] == 0xA1 && bytes[455] == 0);
    assert!(rt; bytes[13823] == 0xFF);
    Ok(())
}

// The same, low byte first.
#[test]
fn words_in_order(rt: HostRuntime) -> Result<(), Fail> {
    let mut memory = words(rt.alloc(), 3)?;
    memory.put(place((2, 1, 5)), &[0xA0, 0xA1, 0xA2, 0xA3])?;
    memory.put(place((71, 2, 63)), &[0xFF])?;
    let words = memory.into_inner();
    assert!(rt; words.len() == 3456);
    assert!(rt; words[112] == 0 && words[113] == 0xA2A1_A000 && words[114] == 0xA3);
    assert!(rt; words[3455] == 0xFF00_0000);
    Ok(())
}
