// What the static library hands to C: what is found goes through references, and a number says how, since C knows no Result.
ghost use Rattle.std.specs.Prelude.{◌≡◌, ◌++◌};
ghost use Rattle.codec.specs.Check.{check as check_for};
ghost use Rattle.codec.specs.Code.{decoding};
ghost use Rattle.codec.specs.Shown.{Exported};

use crate::code::{check_of, decode};
use crate::word::{Check, FullCheck, Line, Word};

// the answer to C for an uncorrectable word, which is no finding's number
const UNCORRECTABLE: u8 = 255;

// The six check symbols of a line.
pub fn codec_check(line: &Line, check: &mut FullCheck)
    ensures stores_the_check { check.new ≡ check_for line.now }
{
    *check = check_of(line);
}

// Decodes a full word, shown as a line and a check: the finding's number and the line, or 255 and nothing stored.
pub fn codec_decode(shown: &Line, check: &FullCheck, line: &mut Line) -> u8
    ensures is_the_decoding { Exported (decoding (shown.now ++ check.now)) result line.old line.new }
{
    let word = Word {
        line: *shown,
        check: Check::Full(*check),
    };
    decode(&word, line).map_or(UNCORRECTABLE, |finding| finding.number())
}
