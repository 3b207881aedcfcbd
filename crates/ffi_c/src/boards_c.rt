// The functions on boards.
ghost use Rattle.std.specs.Prelude.{◌≡◌, Ok, length};
ghost use Rattle.rules.specs.Rules.{or_refused};
ghost use Rattle.rules.specs.declared.calls.Outcome.TheVariants.{Done as DoneOutcome};
ghost use Rattle.rules.specs.declared.calls.Call.TheVariants.{Read as ReadCall, Write as WriteCall, Renew as RenewCall, Clear as ClearCall, Scrub as ScrubCall, Mark as MarkCall};
ghost use Rattle.ffi.specs.Lent.{Formats, MarksListed, format_after, lent_after, lent_answer, line_read, marks_left, unfit, unmarked};
ghost use Rattle.ffi.specs.Replies.{told};

use ffi::banks::MarkedBanks;
use ffi::boards;
use ffi::replies::Reply;

// Puts zeros everywhere; no bank is marked any more. Refuses a length that fits no size with 10.
#[unsafe(no_mangle)]
pub extern "C" fn jelotsam_format(memory: &mut [u8], marked: &mut MarkedBanks) -> Reply
    ensures refuses_a_bad_length_alone { result ≡ told (or_refused (unfit memory.old) (Ok DoneOutcome)) }
    ensures puts_zeros { memory.new ≡ format_after memory.old }
    ensures formats_a_board { Formats memory.old memory.new }
    ensures forgets_the_marks { marked.new ≡ unmarked (unfit memory.old) marked.old }
{
    boards::jelotsam_format(memory, marked)
}

// Hands the line of an address out into 64 bytes.
#[unsafe(no_mangle)]
pub extern "C" fn jelotsam_read(
    memory: &mut [u8],
    marked: &MarkedBanks,
    address: usize,
    line: &mut [u8],
) -> Reply
    ensures answers_as_ruled { result ≡ told (lent_answer memory.old marked.now (ReadCall address (length line.old))) }
    ensures hands_out_the_line { line.new ≡ line_read memory.old marked.now address line.old }
    ensures leaves_the_memory { memory.new ≡ memory.old }
{
    boards::jelotsam_read(memory, marked, address, line)
}

// Stores a line of 64 bytes in place of the one that an address has.
#[unsafe(no_mangle)]
pub extern "C" fn jelotsam_write(
    memory: &mut [u8],
    marked: &MarkedBanks,
    address: usize,
    line: &[u8],
) -> Reply
    ensures answers_as_ruled { result ≡ told (lent_answer memory.old marked.now (WriteCall address line.now)) }
    ensures stores_as_ruled { memory.new ≡ lent_after memory.old marked.now (WriteCall address line.now) }
{
    boards::jelotsam_write(memory, marked, address, line)
}

// Stores a line of 64 bytes whatever the address had.
#[unsafe(no_mangle)]
pub extern "C" fn jelotsam_renew(
    memory: &mut [u8],
    marked: &MarkedBanks,
    address: usize,
    line: &[u8],
) -> Reply
    ensures answers_as_ruled { result ≡ told (lent_answer memory.old marked.now (RenewCall address line.now)) }
    ensures stores_as_ruled { memory.new ≡ lent_after memory.old marked.now (RenewCall address line.now) }
{
    boards::jelotsam_renew(memory, marked, address, line)
}

// Stores zeros for the whole group of an address.
#[unsafe(no_mangle)]
pub extern "C" fn jelotsam_clear(memory: &mut [u8], marked: &MarkedBanks, address: usize) -> Reply
    ensures answers_as_ruled { result ≡ told (lent_answer memory.old marked.now (ClearCall address)) }
    ensures stores_as_ruled { memory.new ≡ lent_after memory.old marked.now (ClearCall address) }
{
    boards::jelotsam_clear(memory, marked, address)
}

// Puts every line, check and the parity of an address's group anew, and counts the bytes that were shown otherwise.
#[unsafe(no_mangle)]
pub extern "C" fn jelotsam_scrub(memory: &mut [u8], marked: &MarkedBanks, address: usize) -> Reply
    ensures answers_as_ruled { result ≡ told (lent_answer memory.old marked.now (ScrubCall address 4096)) }
    ensures stores_as_ruled { memory.new ≡ lent_after memory.old marked.now (ScrubCall address 4096) }
{
    boards::jelotsam_scrub(memory, marked, address)
}

// Retires a bank, and answers the spare that has its lines from now on.
#[unsafe(no_mangle)]
pub extern "C" fn jelotsam_mark(memory: &mut [u8], marked: &mut MarkedBanks, bank: usize) -> Reply
    ensures answers_as_ruled { result ≡ told (lent_answer memory.old marked.old (MarkCall bank 4096)) }
    ensures stores_as_ruled { memory.new ≡ lent_after memory.old marked.old (MarkCall bank 4096) }
    ensures adds_the_bank { marked.new ≡ marks_left memory.old marked.old bank }
    ensures lists_the_marks_as_ruled { MarksListed memory.old marked.old bank marked.new }
{
    boards::jelotsam_mark(memory, marked, bank)
}
