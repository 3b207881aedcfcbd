// What single lines of a script do.
ghost use Rattle.std.specs.Prelude.{◌≡◌};
ghost use Rattle.language.specs.Commands.{command_in};
ghost use Rattle.rehearsal.specs.Events.{heard};
ghost use Rattle.script.specs.Machines.{after_call, byte_of_line, filled, machine_of, with_that_line};
ghost use Rattle.script.specs.Scripts.{answered, fault_spelled, line_after, line_reply};

use board::board::Board;
use language::command::{Command, letter_of, read_command};
use language::reply::Reply;
use layers::buffer::WriteBuffer;
use layers::fault::Fault;
use layers::injector::FaultInjector;
use rehearsal::running::perform;
use rules::calls::{Answer, Call};
use stack::flat::bytes::ByteMemory;

// The memory that a script's board works on.
pub type Pile = WriteBuffer<FaultInjector<ByteMemory>>;

// The fault that a line spells, if it spells one.
pub fn read_fault(line: &[u8]) -> Option<Fault>
    ensures is_spelled { result ≡ fault_spelled (command_in line.now) }
{
    match read_command(line) {
        Some(Command::Inject(fault)) => Some(fault),
        _ => None,
    }
}

// Runs one line; a fault comes too late here.
pub fn run_line(board: &mut Board<Pile>, line: &[u8]) -> Reply
    ensures replies { result ≡ line_reply (machine_of board.old) (command_in line.now) }
    ensures moves { machine_of board.new ≡ line_after (machine_of board.old) (command_in line.now) }
{
    match read_command(line) {
        Some(Command::Do(call)) => {
            let answer = run_call(board, &call);
            Reply::to_call(letter_of(&call), &answer)
        }
        _ => Reply::unreadable(),
    }
}

// Does one call, with a line of the byte that it gives.
fn run_call(board: &mut Board<Pile>, call: &Call<u8>) -> Answer
    ensures answers { result ≡ answered (machine_of board.old) call.now }
    ensures moves { machine_of board.new ≡ after_call (machine_of board.old) (filled call.now) }
{
    let line = [fill(call); 64];
    let lent = with_line(call, &line);
    perform(board, &lent)
}

// The byte that a call fills its line with; 0 where it has none, and then nothing reads the line.
fn fill(call: &Call<u8>) -> u8
    ensures is_its_byte { result ≡ byte_of_line call.now }
{
    match *call {
        Call::Write { line, .. } | Call::Renew { line, .. } => line,
        _ => 0,
    }
}

// The same call with that line. A method of `Call` that maps its line would repeat these arms for this one use.
fn with_line<'a>(call: &Call<u8>, line: &'a [u8]) -> Call<&'a [u8]>
    ensures is_that_call { heard result ≡ with_that_line call.now line.now }
{
    match *call {
        Call::Read { address, length } => Call::Read { address, length },
        Call::Write { address, .. } => Call::Write { address, line },
        Call::Renew { address, .. } => Call::Renew { address, line },
        Call::Clear { address } => Call::Clear { address },
        Call::Scrub { address, length } => Call::Scrub { address, length },
        Call::Mark { bank, length } => Call::Mark { bank, length },
        Call::Settle => Call::Settle,
        Call::Pass => Call::Pass,
    }
}
