// Banks that fail and are retired.
use super::*;

// Two wrong symbols of one word: it is rebuilt; with the bank retired it is clean again.
#[test]
fn a_failing_bank_is_retired(rt: HostRuntime) -> Result<(), Fail> {
    let mut stack = memory(rt.alloc(), 1)?;
    stack.strike(fault(5, 0, FaultKind::Flip, 1))?;
    stack.strike(fault(5, 1, FaultKind::Flip, 1))?;
    stack.strike(fault(40, 2, FaultKind::Flip, 1))?;
    let mut board = Board::format(stack);
    fill(&mut board, 64)?;
    board.pass();
    assert!(rt; finding(&board, 5)? == 2);
    assert!(rt; finding(&board, 40)? == 1);
    assert!(rt; number(board.renew(6, &line(6))) == 7);
    let mut work = [0; 4096];
    assert!(rt; board.mark(5, &mut work)? == 71);
    assert!(rt; finding(&board, 5)? == 0);
    assert!(rt; number(board.renew(6, &line(6))) == 0);
    reads_back(&rt, &board, 64)?;
    assert!(rt; board.mark(40, &mut work)? == 69);
    assert!(rt; finding(&board, 40)? == 0);
    reads_back(&rt, &board, 64)
}

// A scrub counts the bytes that were shown otherwise, and puts them right.
#[test]
fn a_scrub_counts_and_heals(rt: HostRuntime) -> Result<(), Fail> {
    let mut stack = memory(rt.alloc(), 1)?;
    stack.strike(fault(5, 0, FaultKind::Flip, 1))?;
    stack.strike(fault(66, 9, FaultKind::Flip, 1))?;
    let mut board = Board::format(stack);
    fill(&mut board, 64)?;
    board.pass();
    let mut work = [0; 4096];
    assert!(rt; board.scrub(3, &mut work)? == 1);
    assert!(rt; board.scrub(3, &mut work)? == 0);
    assert!(rt; board.scrub(35, &mut work)? == 1);
    reads_back(&rt, &board, 64)
}

// Two uncorrectable words of one group: each names the other.
#[test]
fn two_failing_banks_of_a_group(rt: HostRuntime) -> Result<(), Fail> {
    let mut stack = memory(rt.alloc(), 1)?;
    for bank in [3, 7] {
        stack.strike(fault(bank, 0, FaultKind::StuckAtOne, 1))?;
        stack.strike(fault(bank, 1, FaultKind::StuckAtOne, 1))?;
    }
    let mut board = Board::format(stack);
    board.pass();
    let mut got = [0; 64];
    match board.read(7, &mut got) {
        Err(Refusal::PartnerUncorrectable { address, partner }) => assert!(rt;
            address == 7 && partner == 3
        ),
        _ => return Err(Fail::new("not refused by a partner")),
    }
    let mut work = [0; 4096];
    assert!(rt; number(board.scrub(0, &mut work)) == 7);
    assert!(rt; number(board.scrub(32, &mut work)) == 0);
    assert!(rt; number(board.mark(7, &mut work)) == 7);
    Ok(())
}
