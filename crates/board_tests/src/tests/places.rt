// Where lines, checks and parity lie.
use super::*;
use codec::code::check_of;

// Address 127: index 1, banks 63, 67 from byte 60, 69 from byte 62, parity in 71.
#[test]
fn with_no_bank_retired(rt: HostRuntime) -> Result<(), Fail> {
    let mut board = Board::format(memory(rt.alloc(), 2)?);
    board.write(127, &line(9))?;
    let stack = board.release();
    let check_symbols = check_of(&line(9));
    let mut whole = [0; 64];
    shown(&stack, 63, 1, 0, &mut whole)?;
    assert!(rt; whole == line(9));
    shown(&stack, 71, 1, 0, &mut whole)?;
    assert!(rt; whole == line(9));
    let mut first = [0; 4];
    shown(&stack, 67, 1, 60, &mut first)?;
    assert!(rt; first[..] == check_symbols[..4]);
    let mut second = [0; 2];
    shown(&stack, 69, 1, 62, &mut second)?;
    assert!(rt; second[..] == check_symbols[4..]);
    Ok(())
}

// With two banks retired: bank 68 byte 63, parity in 70.
#[test]
fn with_two_banks_retired(rt: HostRuntime) -> Result<(), Fail> {
    let mut board = Board::format(memory(rt.alloc(), 2)?);
    let mut work = [0; 4096];
    assert!(rt; board.mark(5, &mut work)? == 71);
    assert!(rt; board.mark(9, &mut work)? == 69);
    board.write(127, &line(9))?;
    board.write(64 + 5, &line(4))?;
    let stack = board.release();
    let mut whole = [0; 64];
    shown(&stack, 71, 1, 0, &mut whole)?;
    assert!(rt; whole == line(4));
    let mut fifth = [0; 1];
    shown(&stack, 68, 1, 63, &mut fifth)?;
    assert!(rt; fifth[0] == check_of(&line(9))[4]);
    let mut parity = [0; 64];
    shown(&stack, 70, 1, 0, &mut parity)?;
    assert!(rt; parity[0] == line(9)[0] ^ line(4)[0]);
    Ok(())
}
