// Lists of calls rehearsed on two boards, and the two compared.
#![tactic(auto)]

ghost use Rattle.rehearsal.specs.Theorem.{Rehearses};

pub mod comparing;
pub mod running;

use board::board::Board;
use comparing::same_lines;
use rules::calls::{Answer, Call};
use running::run;
use stack::memory::Stack;

// Two boards after a rehearsal, and whether reads hand out the same lines on both.
#[derive(Drop)]
pub struct Rehearsal<A: Stack, B: Stack> {
    pub first: Board<A>,
    pub second: Board<B>,
    pub equal: bool,
}

// Formats both stacks, runs a list of calls on each (as many as there is room for answers), and compares the lines that reads hand out.
pub fn rehearse<A: Stack, B: Stack>(
    a: A,
    calls: &[Call<&[u8]>],
    answers: &mut [Answer],
    b: B,
    others: &[Call<&[u8]>],
    replies: &mut [Answer],
) -> Rehearsal<A, B>
    ensures main_theorem { Rehearses A.Stack B.Stack a b result calls.now answers.new others.now replies.new }
{
    let mut left = Board::format(a);
    run(&mut left, calls, answers);
    let mut right = Board::format(b);
    run(&mut right, others, replies);
    let equal = same_lines(&left, &right);
    Rehearsal {
        first: left,
        second: right,
        equal,
    }
}
