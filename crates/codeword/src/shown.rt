// The shown word that the changes are applied to.
ghost use Rattle.std.specs.Prelude.{◌≡◌};
ghost use Rattle.codec.specs.Check.{check as check_for};
ghost use Rattle.codec.specs.Shown.{symbols as symbols_of};
ghost use Rattle.codec.specs.Word.{corrected};
ghost use Rattle.codeword.specs.Shown.{symbols_in, short_in};

use codec::code::check_of;
use codec::word::{Check, FullCheck, Line, Word};

// A full word: the symbols of a line, then those of its check.
#[derive(Clone, Copy)]
pub struct ShownWord {
    pub line: Line,
    pub check: FullCheck,
}

// Two words are made of it, and a `From` would not say which.
impl ShownWord {
    // The codeword of a line.
    pub fn of(line: &Line) -> ShownWord
        ensures has_the_line { result.line ≡ line.now }
        ensures has_its_check { result.check ≡ check_for line.now }
    {
        ShownWord {
            line: *line,
            check: check_of(line),
        }
    }

    // Adds a byte to a symbol; a number that no symbol has changes nothing.
    pub fn change(&mut self, symbol: usize, xor: u8)
        ensures adds_to_that_symbol_alone { symbols_in self.new ≡ corrected (symbols_in self.old) symbol xor }
    {
        if symbol < 64 {
            self.line[symbol] ^= xor;
        } else if symbol < 70 {
            self.check[symbol - 64] ^= xor;
        }
    }

    // The full word.
    pub fn full(&self) -> Word
        ensures has_all_symbols { symbols_of result ≡ symbols_in self.now }
    {
        Word {
            line: self.line,
            check: Check::Full(self.check),
        }
    }

    // The short word, which lacks symbol 69.
    pub fn short(&self) -> Word
        ensures has_all_symbols_but_the_last { symbols_of result ≡ short_in self.now }
    {
        let [a, b, c, d, e, _] = self.check;
        Word {
            line: self.line,
            check: Check::Short([a, b, c, d, e]),
        }
    }
}
