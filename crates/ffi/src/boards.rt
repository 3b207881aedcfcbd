// The calls of a board over memory in bytes that the host lends for the call; between calls the host keeps the bytes and the marked banks.
ghost use Rattle.std.specs.Prelude.{◌≡◌, Ok, length};
ghost use Rattle.rules.specs.Rules.{or_refused};
ghost use Rattle.rules.specs.declared.calls.Outcome.TheVariants.{Done as DoneOutcome};
ghost use Rattle.rules.specs.declared.calls.Call.TheVariants.{Read as ReadCall, Write as WriteCall, Renew as RenewCall, Clear as ClearCall, Scrub as ScrubCall, Mark as MarkCall};
ghost use Rattle.ffi.specs.Lent.{Formats, MarksListed, format_after, lent_after, lent_answer, line_read, marks_left, unfit, unmarked};
ghost use Rattle.ffi.specs.Replies.{told};

use super::banks::MarkedBanks;
use super::lent::{call_on, format_on};
use super::lines::copy_line;
use super::replies::Reply;
use rules::calls::{Call, Outcome};
use stack::flat::bytes::ByteMemory;
use stack::flat::lent::LentMemory;

// The bytes of the stack that scrub and mark work in.
const WORK: usize = 4096;

// Puts zeros everywhere; no bank is marked any more. Refuses a length that fits no size with 10.
pub fn jelotsam_format(memory: &mut [u8], marked: &mut MarkedBanks) -> Reply
    ensures refuses_a_bad_length_alone { result ≡ told (or_refused (unfit memory.old) (Ok DoneOutcome)) }
    ensures puts_zeros { memory.new ≡ format_after memory.old }
    ensures formats_a_board { Formats memory.old memory.new }
    ensures forgets_the_marks { marked.new ≡ unmarked (unfit memory.old) marked.old }
{
    match ByteMemory::check_length(memory.len()) {
        Ok(_) => {
            format_on(&mut LentMemory { bytes: memory });
            *marked = MarkedBanks::default();
            Reply::default()
        }
        Err(refusal) => Reply::from(refusal),
    }
}

// Hands the line of an address out into 64 bytes.
pub fn jelotsam_read(
    memory: &mut [u8],
    marked: &MarkedBanks,
    address: usize,
    line: &mut [u8],
) -> Reply
    ensures answers_as_ruled { result ≡ told (lent_answer memory.old marked.now (ReadCall address (length line.old))) }
    ensures hands_out_the_line { line.new ≡ line_read memory.old marked.now address line.old }
    ensures leaves_the_memory { memory.new ≡ memory.old }
{
    let call = Call::Read {
        address,
        length: line.len(),
    };
    let answer = call_on(memory, marked, &call);
    if let Ok(Outcome::HandedOut(found, _)) = &answer {
        copy_line(found, line);
    }
    Reply::from(answer)
}

// Stores a line of 64 bytes in place of the one that an address has.
pub fn jelotsam_write(memory: &mut [u8], marked: &MarkedBanks, address: usize, line: &[u8]) -> Reply
    ensures answers_as_ruled { result ≡ told (lent_answer memory.old marked.now (WriteCall address line.now)) }
    ensures stores_as_ruled { memory.new ≡ lent_after memory.old marked.now (WriteCall address line.now) }
{
    Reply::from(call_on(memory, marked, &Call::Write { address, line }))
}

// Stores a line of 64 bytes whatever the address had.
pub fn jelotsam_renew(memory: &mut [u8], marked: &MarkedBanks, address: usize, line: &[u8]) -> Reply
    ensures answers_as_ruled { result ≡ told (lent_answer memory.old marked.now (RenewCall address line.now)) }
    ensures stores_as_ruled { memory.new ≡ lent_after memory.old marked.now (RenewCall address line.now) }
{
    Reply::from(call_on(memory, marked, &Call::Renew { address, line }))
}

// Stores zeros for the whole group of an address.
pub fn jelotsam_clear(memory: &mut [u8], marked: &MarkedBanks, address: usize) -> Reply
    ensures answers_as_ruled { result ≡ told (lent_answer memory.old marked.now (ClearCall address)) }
    ensures stores_as_ruled { memory.new ≡ lent_after memory.old marked.now (ClearCall address) }
{
    Reply::from(call_on(memory, marked, &Call::Clear { address }))
}

// Puts every line, check and the parity of an address's group anew, and counts the bytes that were shown otherwise.
pub fn jelotsam_scrub(memory: &mut [u8], marked: &MarkedBanks, address: usize) -> Reply
    ensures answers_as_ruled { result ≡ told (lent_answer memory.old marked.now (ScrubCall address 4096)) }
    ensures stores_as_ruled { memory.new ≡ lent_after memory.old marked.now (ScrubCall address 4096) }
{
    let call = Call::Scrub {
        address,
        length: WORK,
    };
    Reply::from(call_on(memory, marked, &call))
}

// Retires a bank, and answers the spare that has its lines from now on.
pub fn jelotsam_mark(memory: &mut [u8], marked: &mut MarkedBanks, bank: usize) -> Reply
    ensures answers_as_ruled { result ≡ told (lent_answer memory.old marked.old (MarkCall bank 4096)) }
    ensures stores_as_ruled { memory.new ≡ lent_after memory.old marked.old (MarkCall bank 4096) }
    ensures adds_the_bank { marked.new ≡ marks_left memory.old marked.old bank }
    ensures lists_the_marks_as_ruled { MarksListed memory.old marked.old bank marked.new }
{
    let call = Call::Mark { bank, length: WORK };
    let answer = call_on(memory, marked, &call);
    if answer.is_ok() {
        *marked = marked.and(bank as u8);
    }
    Reply::from(answer)
}
