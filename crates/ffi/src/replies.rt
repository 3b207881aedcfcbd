// What a host in C is told, in numbers.
ghost use Rattle.std.specs.Prelude.{◌≡◌};
ghost use Rattle.ffi.specs.Replies.{found_reply, refused_by, refused_reply, told};

use codec::word::{Finding, Uncorrectable};
use rules::calls::{Answer, Outcome};
use stack::refusal::Refusal;

// The answer to a call, in numbers, since C reads them; what it does not carry is 0.
#[repr(C)]
#[derive(Clone, Copy, Default, PartialEq, Eq, Debug)]
pub struct Reply {
    // the refusal's number, 0 where the call was accepted, 255 for an uncorrectable word
    pub refusal: u8,
    // the finding's number, and the pair of a finding that has one: the symbol's number and what was added to it
    pub finding: u8,
    pub value: u8,
    pub symbol: usize,
    // a scrub's count of bytes, a mark's spare
    pub number: usize,
    // the address that refusals 7 and 8 name, and the partner that 7 names
    pub address: usize,
    pub partner: usize,
}

// No refusal has this number.
const UNCORRECTABLE: u8 = 255;

// Refused.
impl From<Refusal> for Reply {
    ghost from_gives = { λ refusal reply. reply ≡ refused_reply refusal };

    fn from(refusal: Refusal) -> Reply {
        let (address, partner) = match refusal {
            Refusal::PartnerUncorrectable { address, partner } => (address, partner),
            Refusal::RebuildFailed { address } => (address, 0),
            _ => (0, 0),
        };
        Reply {
            refusal: refusal.number(),
            address,
            partner,
            ..Reply::default()
        }
    }
}

// Of a word that is uncorrectable, or cannot be judged right.
impl From<Uncorrectable> for Reply {
    ghost from_gives = { λ _ reply. reply ≡ refused_by 255 0 0 };

    fn from(_: Uncorrectable) -> Reply {
        Reply {
            refusal: UNCORRECTABLE,
            ..Reply::default()
        }
    }
}

// Accepted, with a finding.
impl From<Finding> for Reply {
    ghost from_gives = { λ finding reply. reply ≡ found_reply finding };

    fn from(finding: Finding) -> Reply {
        let (symbol, value) = match finding {
            Finding::Corrected(pair) | Finding::RebuiltCorrected(pair) => pair,
            Finding::Clean | Finding::Rebuilt => (0, 0),
        };
        Reply {
            finding: finding.number(),
            value,
            symbol,
            ..Reply::default()
        }
    }
}

// What a board's answer says.
impl From<Answer> for Reply {
    ghost from_gives = { λ answer reply. reply ≡ told answer };

    fn from(answer: Answer) -> Reply {
        match answer {
            Err(refusal) => Reply::from(refusal),
            Ok(Outcome::HandedOut(_, finding) | Outcome::Written(finding)) => Reply::from(finding),
            Ok(Outcome::Scrubbed(number) | Outcome::Marked(number)) => Reply {
                number,
                ..Reply::default()
            },
            Ok(Outcome::Renewed | Outcome::Cleared | Outcome::Done) => Reply::default(),
        }
    }
}
