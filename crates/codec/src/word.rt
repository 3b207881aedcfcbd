// Words as they are held, and what is found at them.
ghost use Rattle.std.specs.Prelude.{◌≡◌, Some, length, codes};
ghost use Rattle.codec.specs.Code.{checks};
ghost use Rattle.codec.specs.Shown.{number_of, check_of, is_short};

use std::error::Error;
use std::fmt;

// The 64 bytes that a host stores and reads.
pub type Line = [u8; 64];

// The check symbols of a full word, and those of a short one.
pub type FullCheck = [u8; 6];

pub type ShortCheck = [u8; 5];

// The check symbols of a word: six, or five where the word is short.
#[derive(Clone, Copy)]
pub enum Check {
    Full(FullCheck),
    Short(ShortCheck),
}

impl Check {
    // The symbols, in order.
    pub fn symbols(&self) -> &[u8]
        ensures are_those_held { result.now ≡ check_of self.now }
        ensures are_six_or_in_short_five { length result.now ≡ checks (is_short self.now) }
    {
        match self {
            Check::Full(c) => c,
            Check::Short(c) => c,
        }
    }
}

// A line of 64 bytes with check symbols, as a memory shows it or as it was rebuilt.
#[derive(Clone, Copy)]
pub struct Word {
    pub line: Line,
    pub check: Check,
}

// How a line was come by; where a symbol was corrected, its number and what was added to it.
#[derive(Clone, Copy, PartialEq, Eq, Debug)]
pub enum Finding {
    Clean,
    Corrected((usize, u8)),
    Rebuilt,
    RebuiltCorrected((usize, u8)),
}

impl Finding {
    // The finding's number, 0 to 3. No `From`: `u8::from(finding)` would not say which number is meant.
    pub fn number(&self) -> u8
        ensures is_the_finding_s_number { result ≡ number_of self.now }
    {
        match self {
            Finding::Clean => 0,
            Finding::Corrected(_) => 1,
            Finding::Rebuilt => 2,
            Finding::RebuiltCorrected(_) => 3,
        }
    }
}

// A word is neither right nor one symbol off.
#[derive(Clone, Copy, PartialEq, Eq, Debug)]
pub struct Uncorrectable;

impl fmt::Display for Uncorrectable {
    ghost output = { λ _. Some (codes "uncorrectable") };

    fn fmt<W: fmt::Write>(&self, f: &mut fmt::Formatter<W>) -> fmt::Result {
        f.write_str("uncorrectable")
    }
}

impl Error for Uncorrectable {}
