// Every refusal at its edge, in order.
use super::*;

#[test]
fn of_addresses_and_lines(rt: HostRuntime) -> Result<(), Fail> {
    let mut board = Board::format(memory(rt.alloc(), 1)?);
    let mut short = [7; 63];
    assert!(rt; number(board.read(64, &mut short)) == 1);
    assert!(rt; number(board.read(63, &mut short)) == 2);
    assert!(rt; short == [7; 63]);
    assert!(rt; number(board.write(usize::MAX, &short)) == 1);
    assert!(rt; number(board.write(0, &short)) == 2);
    assert!(rt; number(board.renew(64, &short)) == 1);
    assert!(rt; number(board.renew(0, &short)) == 2);
    assert!(rt; number(board.renew(63, &line(1))) == 0);
    assert!(rt; number(board.clear(64)) == 1);
    assert!(rt; number(board.clear(63)) == 0);
    Ok(())
}

#[test]
fn of_banks_and_work_buffers(rt: HostRuntime) -> Result<(), Fail> {
    let mut board = Board::format(memory(rt.alloc(), 1)?);
    let mut short = [7; 4095];
    let mut work = [7; 4096];
    assert!(rt; number(board.scrub(64, &mut short)) == 1);
    assert!(rt; number(board.scrub(0, &mut short)) == 6);
    assert!(rt; number(board.mark(64, &mut short)) == 3);
    assert!(rt; number(board.mark(0, &mut short)) == 6);
    assert!(rt; board.mark(0, &mut work)? == 71);
    assert!(rt; number(board.mark(0, &mut short)) == 4);
    assert!(rt; board.mark(63, &mut work)? == 69);
    assert!(rt; number(board.mark(63, &mut short)) == 4);
    assert!(rt; number(board.mark(1, &mut short)) == 5);
    assert!(rt; short[0] == 7 && short[4094] == 7);
    Ok(())
}

// The first 4,096 bytes end as zero once a work buffer was accepted; the rest stays.
#[test]
fn and_the_work_buffers_after_them(rt: HostRuntime) -> Result<(), Fail> {
    let mut board = Board::format(memory(rt.alloc(), 1)?);
    let mut long = [7; 5000];
    assert!(rt; board.scrub(0, &mut long)? == 0);
    assert!(rt; long[0] == 0 && long[4095] == 0 && long[4096] == 7 && long[4999] == 7);
    let mut refused = [7; 5000];
    assert!(rt; number(board.mark(64, &mut refused)) == 3);
    assert!(rt; refused[0] == 7);
    Ok(())
}

// A memory that has no index: only banks can be retired.
#[test]
fn of_a_board_of_size_zero(rt: HostRuntime) -> Result<(), Fail> {
    let mut board = Board::format(memory(rt.alloc(), 0)?);
    let mut work = [0; 4096];
    let mut got = [0; 64];
    assert!(rt; number(board.read(0, &mut got)) == 1);
    assert!(rt; number(board.clear(0)) == 1);
    assert!(rt; number(board.scrub(0, &mut work)) == 1);
    assert!(rt; board.mark(7, &mut work)? == 71);
    assert!(rt; board.mark(8, &mut work)? == 69);
    Ok(())
}
