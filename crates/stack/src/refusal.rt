// Why a call is refused: one enum for the whole library.
ghost use Rattle.std.specs.Prelude.{◌≡◌, Some};
ghost use Rattle.stack.specs.Refusals.{numbered, refusal_text};

use std::error::Error;
use std::fmt;

#[derive(Clone, Copy, PartialEq, Eq, Debug)]
pub enum Refusal {
    // the address is not below 64 times the size
    AddressOutOfRange,
    // the line buffer has not 64 bytes
    LineLength,
    // the bank to mark is above 63
    BankOutOfRange,
    // the bank is marked already
    BankAlreadyMarked,
    // two banks are marked
    NoSpareLeft,
    // the work buffer has fewer than 4,096 bytes
    WorkBufferShort,
    // the line cannot be rebuilt, since a partner of its group is uncorrectable too
    PartnerUncorrectable { address: usize, partner: usize },
    // the rebuilt word is no codeword, nor one symbol off
    RebuildFailed { address: usize },
    // the piece is empty, or does not lie in the memory
    PlaceOutOfRange,
    // the length fits no size from 1 to 1,024
    LengthFitsNoSize,
    // the fault's mask has no bit
    EmptyMask,
    // 64 faults stand
    FaultTableFull,
    // the log has no room
    LogFull,
    // the line of a script is unreadable
    LineUnreadable,
}

impl Refusal {
    // The number by which a host knows the refusal, as the rules give it; no cast does, since two refusals carry addresses.
    pub fn number(&self) -> u8
        ensures is_numbered { result ≡ numbered self.now }
    {
        match self {
            Refusal::AddressOutOfRange => 1,
            Refusal::LineLength => 2,
            Refusal::BankOutOfRange => 3,
            Refusal::BankAlreadyMarked => 4,
            Refusal::NoSpareLeft => 5,
            Refusal::WorkBufferShort => 6,
            Refusal::PartnerUncorrectable { .. } => 7,
            Refusal::RebuildFailed { .. } => 8,
            Refusal::PlaceOutOfRange => 9,
            Refusal::LengthFitsNoSize => 10,
            Refusal::EmptyMask => 11,
            Refusal::FaultTableFull => 12,
            Refusal::LogFull => 13,
            Refusal::LineUnreadable => 14,
        }
    }
}

// As programs print it.
impl fmt::Display for Refusal {
    ghost output = { λ r. Some (refusal_text r) };

    fn fmt<W: fmt::Write>(&self, f: &mut fmt::Formatter<W>) -> fmt::Result {
        let number = self.number();
        write!(f, "refused with {number}")
    }
}

impl Error for Refusal {}
