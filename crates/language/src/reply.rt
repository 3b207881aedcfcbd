// What a script is told for each line, and how that is written.
ghost use Rattle.std.specs.Prelude.{◌≡◌, ◌++◌, Some, None, OnOk};
ghost use Rattle.language.specs.Rows.{byte_text, call_reply, detail_text, fault_reply, refused as refused_reply, row, unreadable, with_detail};

use rules::calls::{Answer, Outcome};
use stack::refusal::Refusal;
use std::alloc::{AllocError, Global};
use std::fmt;

// A letter, the refusal if there was one, a finding's number, a count or a spare, and the first byte of a line handed out.
#[derive(Clone, Copy)]
pub struct Reply {
    pub letter: u8,
    pub refusal: Option<Refusal>,
    pub detail: Option<usize>,
    pub first: Option<u8>,
}

impl Reply {
    // To a line that cannot be read.
    pub fn unreadable() -> Reply
        ensures is_the_reply { result ≡ unreadable }
    {
        Reply::refused(b'?', Refusal::LineUnreadable)
    }

    // To a fault that was added or refused.
    pub fn to_fault(done: Result<(), Refusal>) -> Reply
        ensures is_the_reply { result ≡ fault_reply done }
    {
        match done {
            Ok(()) => Reply::plain(b'X'),
            Err(refusal) => Reply::refused(b'X', refusal),
        }
    }

    // To a call of the board.
    pub fn to_call(letter: u8, answer: &Answer) -> Reply
        ensures is_the_reply { result ≡ call_reply letter answer.now }
    {
        match answer {
            Err(refusal) => Reply::refused(letter, *refusal),
            Ok(Outcome::HandedOut(line, finding)) => Reply {
                letter,
                refusal: None,
                detail: Some(finding.number() as usize),
                first: Some(line[0]),
            },
            Ok(Outcome::Written(finding)) => Reply::with_detail(letter, finding.number() as usize),
            Ok(Outcome::Scrubbed(number) | Outcome::Marked(number)) => {
                Reply::with_detail(letter, *number)
            }
            Ok(Outcome::Renewed | Outcome::Cleared | Outcome::Done) => Reply::plain(letter),
        }
    }

    fn plain(letter: u8) -> Reply
        ensures is_the_reply { result ≡ with_detail letter None }
    {
        Reply {
            letter,
            refusal: None,
            detail: None,
            first: None,
        }
    }

    fn with_detail(letter: u8, detail: usize) -> Reply
        ensures is_the_reply { result ≡ with_detail letter (Some detail) }
    {
        Reply {
            detail: Some(detail),
            ..Reply::plain(letter)
        }
    }

    fn refused(letter: u8, refusal: Refusal) -> Reply
        ensures is_the_reply { result ≡ refused_reply letter refusal }
    {
        Reply {
            refusal: Some(refusal),
            ..Reply::plain(letter)
        }
    }
}

// A number in decimal, or a dash.
#[derive(Clone, Copy)]
struct Detail(Option<usize>);

impl fmt::Display for Detail {
    ghost output = { λ d. Some (detail_text d.0) };

    fn fmt<W: fmt::Write>(&self, f: &mut fmt::Formatter<W>) -> fmt::Result {
        match self.0 {
            Some(n) => write!(f, "{n}"),
            None => write!(f, "-"),
        }
    }
}

// A byte as two hexadecimal digits in capitals, or a dash.
#[derive(Clone, Copy)]
struct First(Option<u8>);

impl fmt::Display for First {
    ghost output = { λ d. Some (byte_text d.0) };

    fn fmt<W: fmt::Write>(&self, f: &mut fmt::Formatter<W>) -> fmt::Result {
        match self.0 {
            Some(b) => write!(f, "{b:02X}"),
            None => write!(f, "-"),
        }
    }
}

// Writes a row of the output: the line's number and the reply, parted by tabs.
pub fn push_row(
    heap: Global,
    out: &mut Vec<u8>,
    number: usize,
    reply: &Reply,
) -> Result<(), AllocError>
    ensures writes_the_row { OnOk result (out.new.items ≡ out.old.items ++ row number reply.now) }
{
    let refusal = reply.refusal.map_or(0, |refusal| refusal.number());
    let detail = Detail(reply.detail);
    let first = First(reply.first);
    let front = format!(in heap; "{number}\t")?;
    let back = format!(in heap; "\t{refusal}\t{detail}\t{first}\n")?;
    out.extend_from_slice(front.as_bytes())?;
    out.push(reply.letter)?;
    out.extend_from_slice(back.as_bytes())
}
