// Three errors that a board must not make, as runs; what is kept is looked at below the faults.
use super::*;
use codec::code::check_of;

// A write beside a wrong check symbol does not store the wrong byte.
#[test]
fn a_check_index_is_not_put_back_whole(rt: HostRuntime) -> Result<(), Fail> {
    let mut stack = memory(rt.alloc(), 1)?;
    stack.strike(fault(64, 5, FaultKind::Flip, 1))?;
    let mut board = Board::format(stack);
    fill(&mut board, 2)?;
    board.pass();
    board.write(0, &line(7))?;
    let below = board.release().into_below();
    let mut kept = [0; 4];
    shown(&below, 64, 0, 4, &mut kept)?;
    assert!(rt; kept[..] == check_of(&line(1))[..4]);
    Ok(())
}

// Parity is made from corrected lines.
#[test]
fn parity_is_not_made_from_wrong_lines(rt: HostRuntime) -> Result<(), Fail> {
    let mut stack = memory(rt.alloc(), 1)?;
    stack.strike(fault(7, 0, FaultKind::Flip, 1))?;
    let mut board = Board::format(stack);
    board.write(7, &line(7))?;
    board.pass();
    board.renew(3, &line(3))?;
    let below = board.release().into_below();
    let mut kept = [0; 64];
    shown(&below, 70, 0, 0, &mut kept)?;
    assert!(rt; kept[0] == line(7)[0] ^ line(3)[0]);
    Ok(())
}

// Bank 71 is filled after its old parity was read: an uncorrectable word of the second group is still rebuilt.
#[test]
fn the_spare_is_not_filled_before_its_parity_is_read(rt: HostRuntime) -> Result<(), Fail> {
    let mut stack = memory(rt.alloc(), 1)?;
    stack.strike(fault(40, 0, FaultKind::Flip, 1))?;
    stack.strike(fault(40, 1, FaultKind::Flip, 1))?;
    let mut board = Board::format(stack);
    fill(&mut board, 64)?;
    board.pass();
    let mut work = [0; 4096];
    assert!(rt; board.mark(3, &mut work)? == 71);
    assert!(rt; finding(&board, 40)? == 2);
    reads_back(&rt, &board, 64)
}
