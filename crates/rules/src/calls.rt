// What a host asks of a board, and what it is answered.
use codec::word::Finding;
use stack::refusal::Refusal;

// A call with what the host gives: addresses, banks, lines (held as `L`), and the lengths of buffers.
#[derive(Clone, Copy, PartialEq, Eq, Debug)]
pub enum Call<L> {
    // into a buffer of so many bytes
    Read { address: usize, length: usize },
    Write { address: usize, line: L },
    Renew { address: usize, line: L },
    Clear { address: usize },
    // with a work buffer of so many bytes
    Scrub { address: usize, length: usize },
    Mark { bank: usize, length: usize },
    Settle,
    Pass,
}

// What came of a call that was accepted.
#[derive(Clone, Copy, PartialEq, Eq, Debug)]
pub enum Outcome {
    // a read: the line, and how it was come by
    HandedOut([u8; 64], Finding),
    // a write: how the old line was come by
    Written(Finding),
    Renewed,
    Cleared,
    // how many bytes had been shown otherwise
    Scrubbed(usize),
    // the spare that took over
    Marked(usize),
    // a settle or a pass
    Done,
}

// What a call answers.
pub type Answer = Result<Outcome, Refusal>;
