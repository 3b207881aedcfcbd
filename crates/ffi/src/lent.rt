// A board over memory that the host lends for one call.
ghost use Rattle.std.specs.Prelude.{◌≡◌, Some, MatchResult};
ghost use Rattle.board.specs.Marks.{listed};
ghost use Rattle.rehearsal.specs.Events.{heard};
ghost use Rattle.ffi.specs.Lent.{FormattedLent, Performed, Usable, lent_after, lent_answer, unusable_by};

use super::banks::MarkedBanks;
use board::board::Board;
use board::marks::Marks;
use rehearsal::running::perform;
use rules::calls::{Answer, Call};
use stack::flat::bytes::ByteMemory;
use stack::flat::lent::LentMemory;
use stack::refusal::Refusal;

// Does a call on the bytes of a memory, with the marks that the host keeps for it.
pub(crate) fn call_on(memory: &mut [u8], banks: &MarkedBanks, call: &Call<&[u8]>) -> Answer
    ensures answers { result ≡ lent_answer memory.old banks.now (heard call.now) }
    ensures stores { memory.new ≡ lent_after memory.old banks.now (heard call.now) }
{
    let marks = usable(memory.len(), banks)?;
    let mut lent = LentMemory { bytes: memory };
    perform_on(&mut lent, marks, call)
}

// The marks, where the memory's length fits a board and the marks can be a board's.
fn usable(length: usize, banks: &MarkedBanks) -> Result<Marks, Refusal>
    ensures gives_marks_or_refuses { MatchResult result (Usable length banks.now) (λ e. unusable_by length banks.now ≡ Some e) }
{
    ByteMemory::check_length(length)?;
    Marks::try_from(*banks)
}

// Does a call on a board over lent memory. The loan goes into the board and comes back, so that the lender knows its bytes.
pub(crate) fn perform_on(memory: &mut LentMemory<'_>, marks: Marks, call: &Call<&[u8]>) -> Answer
    ensures performs { Performed memory.old (listed marks) (heard call.now) result memory.new }
    ensures keeps_the_loan { memory.new.bytes.ghost_name ≡ memory.old.bytes.ghost_name }
{
    let lent = std::mem::replace(memory, LentMemory { bytes: &mut [] });
    let mut board = Board::resume(lent, marks);
    let answer = perform(&mut board, call);
    *memory = board.release();
    answer
}

// Formats lent memory, likewise.
pub(crate) fn format_on(memory: &mut LentMemory<'_>)
    ensures formats { FormattedLent memory.old memory.new }
    ensures keeps_the_loan { memory.new.bytes.ghost_name ≡ memory.old.bytes.ghost_name }
{
    let lent = std::mem::replace(memory, LentMemory { bytes: &mut [] });
    *memory = Board::format(lent).release();
}
