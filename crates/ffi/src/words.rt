// Words for a host in C: the check of a line, decoding a shown word, judging a rebuilt one.
ghost use Rattle.std.specs.Prelude.{◌≡◌, ℕ, List};
ghost use Rattle.codec.specs.Code.{Decoded, decoding, judging};
ghost use Rattle.ffi.specs.Words.{Computes, Spelled, check_reply, check_stored, line_by, reply_by};

use super::lines::copy_line;
use super::replies::Reply;
use codec::code::{check_of, decode, judge};
use codec::word::{Check, Finding, Line, Uncorrectable, Word};
use stack::refusal::Refusal;

// Stores the check of a line of 64 bytes: six symbols, or the five of a short word where there is room for five. Refuses other lengths with 2.
pub fn jelotsam_check(line: &[u8], check: &mut [u8]) -> u8
    ensures refuses_bad_lengths_alone { result ≡ check_reply line.now check.old }
    ensures stores_the_check { check.new ≡ check_stored line.now check.old }
{
    match (line.try_into(), check.len()) {
        (Ok(line), count @ (5 | 6)) => {
            check.copy_from_slice(&check_of(line)[..count]);
            0
        }
        _ => Refusal::LineLength.number(),
    }
}

// Decodes a shown word of 70 or 69 symbols into 64 bytes. Refuses other lengths with 2 and an uncorrectable word with 255.
pub fn jelotsam_decode(word: &[u8], line: &mut [u8]) -> Reply
    ensures is_the_decoding { result ≡ reply_by decoding word.now line.old }
    ensures hands_out_the_line { line.new ≡ line_by decoding word.now line.old }
{
    hand_out(word, line, decode)
}

// Judges a rebuilt word, likewise.
pub fn jelotsam_judge(word: &[u8], line: &mut [u8]) -> Reply
    ensures is_the_judgement { result ≡ reply_by judging word.now line.old }
    ensures hands_out_the_line { line.new ≡ line_by judging word.now line.old }
{
    hand_out(word, line, judge)
}

// Copies the line that is found in a way of decoding, and says what is found.
fn hand_out<F>(symbols: &[u8], line: &mut [u8], find: F) -> Reply
where
    F: Fn(&Word, &mut Line) -> Result<Finding, Uncorrectable>,
    requires can_be_called { F.IsAlwaysCallable find }
    ensures tells { (d : List ℕ → Decoded) → Computes d (F.post find) → result ≡ reply_by d symbols.now line.old }
    ensures copies { (d : List ℕ → Decoded) → Computes d (F.post find) → line.new ≡ line_by d symbols.now line.old }
{
    let Some(word) = word_of(symbols) else {
        return Reply::from(Refusal::LineLength);
    };
    if line.len() != 64 {
        return Reply::from(Refusal::LineLength);
    }
    let mut found = [0u8; 64];
    match find(&word, &mut found) {
        Ok(finding) => {
            copy_line(&found, line);
            Reply::from(finding)
        }
        Err(uncorrectable) => Reply::from(uncorrectable),
    }
}

// The word that 70 or 69 symbols are.
fn word_of(symbols: &[u8]) -> Option<Word>
    ensures has_the_symbols { Spelled symbols.now result }
{
    let (line, rest) = symbols.split_first_chunk::<64>()?;
    let check = match rest.len() {
        6 => Check::Full(rest.try_into().ok()?),
        5 => Check::Short(rest.try_into().ok()?),
        _ => return None,
    };
    Some(Word { line: *line, check })
}
