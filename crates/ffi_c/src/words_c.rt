// The functions on words.
ghost use Rattle.std.specs.Prelude.{◌≡◌, length};
ghost use Rattle.codec.specs.Code.{decoding, judging};
ghost use Rattle.codec.specs.Shown.{told as outcome};
ghost use Rattle.ffi.specs.Words.{Spelled, check_reply, check_stored, decoded_reply, handed_line, line_by, reply_by};

use ffi::replies::Reply;
use ffi::words;

// Stores the check of a line of 64 bytes: six symbols, or the five of a short word where there is room for five. Refuses other lengths with 2.
#[unsafe(no_mangle)]
pub extern "C" fn jelotsam_check(line: &[u8], check: &mut [u8]) -> u8
    ensures refuses_bad_lengths_alone { result ≡ check_reply line.now check.old }
    ensures stores_the_check { check.new ≡ check_stored line.now check.old }
{
    words::jelotsam_check(line, check)
}

// Decodes a shown word of 70 or 69 symbols into 64 bytes. Refuses other lengths with 2 and an uncorrectable word with 255.
#[unsafe(no_mangle)]
pub extern "C" fn jelotsam_decode(word: &[u8], line: &mut [u8]) -> Reply
    ensures is_the_decoding { result ≡ reply_by decoding word.now line.old }
    ensures hands_out_the_line { line.new ≡ line_by decoding word.now line.old }
{
    words::jelotsam_decode(word, line)
}

// Judges a rebuilt word, likewise.
#[unsafe(no_mangle)]
pub extern "C" fn jelotsam_judge(word: &[u8], line: &mut [u8]) -> Reply
    ensures is_the_judgement { result ≡ reply_by judging word.now line.old }
    ensures hands_out_the_line { line.new ≡ line_by judging word.now line.old }
{
    words::jelotsam_judge(word, line)
}
