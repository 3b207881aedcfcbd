// Two boards compared by what reads hand out.
ghost use Rattle.std.specs.Prelude.{◌≡◌, ℕ, ◌*◌, ◌<◌, T};
ghost use Rattle.rules.specs.Rules.{answer};
ghost use Rattle.rules.specs.Theorem.{line_handed};
ghost use Rattle.rules.specs.declared.calls.Call.TheVariants.{Read};
ghost use Rattle.board.specs.State.{state};
ghost use Rattle.rehearsal.specs.Theorem.{ExactlyWhen, ReadsEqual, HandsOutEqual};

use board::board::Board;
use stack::memory::Stack;

// Whether two boards have one size and hand out the same lines at all addresses.
pub fn same_lines<A: Stack, B: Stack>(left: &Board<A>, right: &Board<B>) -> bool
    ensures tells_exactly { ExactlyWhen (T result) (ReadsEqual (state A.Stack left.now) (state B.Stack right.now)) }
{
    left.size() == right.size()
        && (0..64 * left.size()).all(|address| same_line(left, right, address))
}

// Whether they hand out the same line at one address, or neither does.
fn same_line<A: Stack, B: Stack>(left: &Board<A>, right: &Board<B>, address: usize) -> bool
    ensures tells_exactly { ExactlyWhen (T result) (HandsOutEqual (state A.Stack left.now) (state B.Stack right.now) address) }
{
    let mut a = [0u8; 64];
    let mut b = [0u8; 64];
    match (left.read(address, &mut a), right.read(address, &mut b)) {
        (Ok(_), Ok(_)) => a == b,
        (Err(_), Err(_)) => true,
        _ => false,
    }
}
