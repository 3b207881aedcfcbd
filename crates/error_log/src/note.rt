// Notes on lines that were corrected, rebuilt or refused.
ghost use Rattle.std.specs.Prelude.{◌≡◌};
ghost use Rattle.error_log.specs.Notes.{kind_number, due as due_for};

use codec::word::Finding;
use stack::located::Located;
use stack::refusal::Refusal;

// What a note is about: a finding but a clean one, or a line that was refused.
#[derive(Clone, Copy, PartialEq, Eq, Debug)]
pub enum Kind {
    Corrected = 1,
    Rebuilt = 2,
    RebuiltCorrected = 3,
    Refused = 4,
}

impl Kind {
    // The kind's number: that of the finding, or 4.
    pub fn number(&self) -> u8
        ensures is_the_kind_s_number { result ≡ kind_number self.now }
    {
        *self as u8
    }
}

// What was found at an address, by its bank and index; symbol and value are 0 where no pair is carried, as the rules have a note.
#[derive(Clone, Copy, PartialEq, Eq, Debug)]
pub struct Note {
    pub bank: usize,
    pub index: usize,
    pub kind: Kind,
    pub symbol: usize,
    pub value: u8,
}

impl Located for Note {
    ghost bank_of = { λ n. n.bank };

    ghost index_of = { λ n. n.index };

    fn bank(&self) -> usize {
        self.bank
    }

    fn index(&self) -> usize {
        self.index
    }
}

// The note that is due for an address and what a read or a write of it answered: none where the line was clean, and none
// where the call was refused for its arguments.
pub fn due(address: usize, answer: &Result<Finding, Refusal>) -> Option<Note>
    ensures is_the_note_due { result ≡ due_for address answer.now }
{
    let (kind, (symbol, value)) = match answer {
        Ok(Finding::Clean) => return None,
        Ok(Finding::Corrected(pair)) => (Kind::Corrected, *pair),
        Ok(Finding::Rebuilt) => (Kind::Rebuilt, (0, 0)),
        Ok(Finding::RebuiltCorrected(pair)) => (Kind::RebuiltCorrected, *pair),
        Err(Refusal::PartnerUncorrectable { .. } | Refusal::RebuildFailed { .. }) => {
            (Kind::Refused, (0, 0))
        }
        Err(_) => return None,
    };
    Some(Note {
        bank: address % 64,
        index: address / 64,
        kind,
        symbol,
        value,
    })
}
