// What a program in C links: the codec's functions under their names in C. Arrays pass as pointers to as many bytes.
#![tactic(auto)]

ghost use Rattle.std.specs.Prelude.{◌≡◌, ◌++◌};
ghost use Rattle.codec.specs.Check.{check as check_for};
ghost use Rattle.codec.specs.Code.{decoding};
ghost use Rattle.codec.specs.Shown.{Exported};

use codec::export;
use codec::word::{FullCheck, Line};

// The six check symbols of a line.
#[unsafe(no_mangle)]
pub extern "C" fn codec_check(line: &Line, check: &mut FullCheck)
    ensures stores_the_check { check.new ≡ check_for line.now }
{
    export::codec_check(line, check)
}

// Decodes a full word, shown as a line and a check: the finding's number and the line, or 255 and nothing stored.
#[unsafe(no_mangle)]
pub extern "C" fn codec_decode(shown: &Line, check: &FullCheck, line: &mut Line) -> u8
    ensures is_the_decoding { Exported (decoding (shown.now ++ check.now)) result line.old line.new }
{
    export::codec_decode(shown, check, line)
}
