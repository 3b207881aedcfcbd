// Calls given as values, and lists of them.
ghost use Rattle.std.specs.Prelude.{◌≡◌};
ghost use Rattle.rules.specs.Rules.{answer};
ghost use Rattle.rules.specs.declared.calls.Call.TheVariants.{Read as ReadCall, Scrub as ScrubCall, Mark as MarkCall};
ghost use Rattle.board.specs.State.{state, Did};
ghost use Rattle.rehearsal.specs.Events.{heard, events, LeavesRest};
ghost use Rattle.rehearsal.specs.Traces.{Called, RanOn};

use board::board::Board;
use rules::calls::{Answer, Call, Outcome};
use stack::memory::Stack;

// Runs calls on a board, as many as there is room for answers, and collects the answers.
pub fn run<S: Stack>(board: &mut Board<S>, calls: &[Call<&[u8]>], answers: &mut [Answer])
    ensures runs_in_order { RanOn S.Stack board.old (events calls.now answers.new) board.new }
    ensures leaves_the_other_answers { LeavesRest calls.now answers.old answers.new }
{
    let count = calls.len().min(answers.len());
    // no `zip` over `iter_mut`: of a loop over what it lends the checker knows nothing afterwards
    for (i, call) in calls[..count].iter().enumerate() {
        answers[i] = perform(board, call);
    }
}

// Does one call.
pub fn perform<S: Stack>(board: &mut Board<S>, call: &Call<&[u8]>) -> Answer
    ensures does_the_call { Called S.Stack board.old (heard call.now) result board.new }
{
    match *call {
        Call::Read { address, length } => read(board, address, length),
        Call::Write { address, line } => board.write(address, line).map(Outcome::Written),
        Call::Renew { address, line } => board.renew(address, line).map(|()| Outcome::Renewed),
        Call::Clear { address } => board.clear(address).map(|()| Outcome::Cleared),
        Call::Scrub { address, length } => scrub(board, address, length),
        Call::Mark { bank, length } => mark(board, bank, length),
        Call::Settle => {
            board.settle();
            Ok(Outcome::Done)
        }
        Call::Pass => {
            board.pass();
            Ok(Outcome::Done)
        }
    }
}

// Reads into a buffer of that length; one that is not 64 is refused whatever it is.
fn read<S: Stack>(board: &Board<S>, address: usize, length: usize) -> Answer
    ensures answers_as_ruled { result ≡ answer (state S.Stack board.now) (ReadCall address length) }
{
    let mut line = [0u8; 64];
    let finding = if length == 64 {
        board.read(address, &mut line)?
    } else {
        board.read(address, &mut [])?
    };
    Ok(Outcome::HandedOut(line, finding))
}

// Scrubs with a work buffer of that length; beyond 4,096 bytes the length makes no difference.
fn scrub<S: Stack>(board: &mut Board<S>, address: usize, length: usize) -> Answer
    ensures scrubs { Did S.Stack board.old (ScrubCall address length) result board.new }
{
    let mut work = [0u8; 4096];
    let used = length.min(work.len());
    board
        .scrub(address, &mut work[..used])
        .map(Outcome::Scrubbed)
}

// Retires a bank with a work buffer of that length.
fn mark<S: Stack>(board: &mut Board<S>, bank: usize, length: usize) -> Answer
    ensures marks { Did S.Stack board.old (MarkCall bank length) result board.new }
{
    let mut work = [0u8; 4096];
    let used = length.min(work.len());
    board.mark(bank, &mut work[..used]).map(Outcome::Marked)
}
