// The code for lines: their check, decoding a shown word, judging a rebuilt one.
ghost use Rattle.std.specs.Prelude.{◌≡◌, ℕ, ◌≤◌, List, ◌++◌, length, take};
ghost use Rattle.codec.specs.Check.{check as check_for};
ghost use Rattle.codec.specs.Code.{decoding, judging, consistent, codeword, checks, Symbols};
ghost use Rattle.codec.specs.Packed.{unpacked, RestoresBy};
ghost use Rattle.codec.specs.Shown.{symbols as symbols_of, is_short, told, Kept};
ghost use Rattle.codec.specs.Word.{Codeword};

use crate::finder::single_error;
use crate::word::{Finding, FullCheck, Line, Uncorrectable, Word};
use field::rows::advance;

// The check of a line as one number, the lowest byte symbol 64.
fn packed_check(line: &Line) -> u64
    ensures has_the_check_in_its_bytes { unpacked result ≡ check_for line.now }
{
    let (rows, _) = line.as_chunks();
    rows.iter().fold(0, |check, row| advance(check, row))
}

// The six check symbols of a line; a short word takes the first five.
pub fn check_of(line: &Line) -> FullCheck
    ensures is_the_check { result ≡ check_for line.now }
    ensures makes_a_full_codeword { Codeword (line.now ++ result) }
    ensures makes_a_short_codeword { Codeword (line.now ++ take 5 result) }
    ensures no_other_does_in_full { (c : List ℕ) → Symbols 6 c → Codeword (line.now ++ c) → c ≡ result }
    ensures no_other_does_in_short { (c : List ℕ) → Symbols 5 c → Codeword (line.now ++ c) → c ≡ take 5 result }
{
    let [a, b, c, d, e, f, _, _] = packed_check(line).to_le_bytes();
    [a, b, c, d, e, f]
}

// Whether the first `count` symbols of a shown check are those of the line's check.
fn agrees(line: &Line, shown: &[u8], count: usize) -> bool
    requires at_least_five { 5 ≤ length shown.now }
    requires at_most_six { length shown.now ≤ 6 }
    requires as_many_shown { count ≤ length shown.now }
    ensures four_tell_whether_the_word_is_consistent { count ≡ 4 → result ≡ consistent (line.now ++ shown.now) }
    ensures all_tell_whether_it_is_a_codeword { count ≡ length shown.now → result ≡ codeword (line.now ++ shown.now) }
{
    check_of(line).starts_with(&shown[..count])
}

// Hands out the line of a word whose first `count` check symbols are those of its line; otherwise that of the codeword that
// differs from the word in one symbol, if there is one, with the pair. Taken into both callers, where the count is known.
#[inline(always)]
fn restore(word: &Word, count: usize, line: &mut Line) -> Result<Option<(usize, u8)>, Uncorrectable>
    requires as_many_as_it_has { count ≤ checks (is_short word.now.check) }
    ensures by_four_corrects_inconsistent_words { count ≡ 4 → RestoresBy consistent word.now result line.old line.new }
    ensures by_all_corrects_all_but_codewords { count ≡ checks (is_short word.now.check) → RestoresBy codeword word.now result line.old line.new }
{
    if agrees(&word.line, word.check.symbols(), count) {
        *line = word.line;
        return Ok(None);
    }
    let (s, e) = single_error(word).ok_or(Uncorrectable)?;
    *line = word.line;
    if s < line.len() {
        line[s] ^= e;
    }
    Ok(Some((s, e)))
}

// Decodes a shown word by its own means: hands out its line, corrected where one symbol is wrong. Its first check decides.
pub fn decode(word: &Word, line: &mut Line) -> Result<Finding, Uncorrectable>
    ensures is_the_decoding { told result line.new ≡ decoding (symbols_of word.now) }
    ensures an_uncorrectable_word_leaves_the_line { Kept result line.old line.new }
{
    let pair = restore(word, 4, line)?;
    // no `map_or`: the finding that it lays out beforehand costs a tenth of the time
    Ok(pair.map_or_else(|| Finding::Clean, Finding::Corrected))
}

// Judges a rebuilt word: hands out the line of a codeword, corrected where one symbol is wrong. Its whole check decides.
pub fn judge(word: &Word, line: &mut Line) -> Result<Finding, Uncorrectable>
    ensures is_the_judgement { told result line.new ≡ judging (symbols_of word.now) }
    ensures an_uncorrectable_word_leaves_the_line { Kept result line.old line.new }
{
    let pair = restore(word, word.check.symbols().len(), line)?;
    Ok(pair.map_or_else(|| Finding::Rebuilt, Finding::RebuiltCorrected))
}
