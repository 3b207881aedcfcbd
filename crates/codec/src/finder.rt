// The sums of a word, and the one wrong symbol that explains them.
ghost use Rattle.std.specs.Prelude.{◌≡◌, ℕ, ◌<◌, ◌≤◌, true, ◌≢◌, length, slice_index};
ghost use Rattle.field.specs.Field.{mul};
ghost use Rattle.codec.specs.Finder.{single_error};
ghost use Rattle.codec.specs.Shown.{symbols as symbols_of};
ghost use Rattle.codec.specs.Word.{coeff, sums as sums_of, Found, PointsAt};

use crate::word::Word;
use field::arithmetic::{Terms, log, progression};
use std::array;

// the number of the last symbol of a full word, which a short one lacks
const LAST: usize = 69;

// What symbol number s adds to S_0 to S_5.
fn terms(s: usize, symbol: u8) -> Terms
    ensures are_its_products { (k : ℕ) → k < 6 → slice_index result k ≡ mul symbol (coeff k s) }
{
    match s {
        0..=67 => progression(symbol, 67 - s as u8),
        68 => [symbol, 0, 0, 0, 0, 0],
        LAST => [0, 0, 0, 0, 0, symbol],
        _ => [0, 0, 0, 0, 0, 0],
    }
}

// S_0 to S_5 of a list of symbols, each taken with its number.
pub fn syndromes(symbols: &[u8]) -> Terms
    ensures are_the_six_sums { result ≡ sums_of symbols.now }
{
    let mut sums = [0; 6];
    for (s, symbol) in symbols.iter().enumerate() {
        let t = terms(s, *symbol);
        sums = array::from_fn(|k| sums[k] ^ t[k]);
    }
    sums
}

// Whether e at symbol s gives the first `count` of the sums.
fn explains(sums: &Terms, count: usize, s: usize, e: u8) -> bool
    requires at_most_six { count ≤ 6 }
    ensures sound { result ≡ true → (k : ℕ) → k < count → slice_index sums.now k ≡ mul e (coeff k s) }
    ensures whole { ((k : ℕ) → k < count → slice_index sums.now k ≡ mul e (coeff k s)) → result ≡ true }
{
    terms(s, e).starts_with(&sums[..count])
}

// The symbol that S_0 and S_1 point at: no other can be the only wrong one.
fn place(sums: &Terms) -> usize
    ensures within { result < 70 }
    ensures no_other { PointsAt sums.now result }
{
    let Some(a) = log(sums[0]) else {
        return LAST;
    };
    let Some(b) = log(sums[1]) else {
        return 68;
    };
    let a = a as usize;
    let b = b as usize;
    let d = if a <= b { b - a } else { b + 255 - a };
    if d < 68 { 67 - d } else { LAST }
}

// The one symbol, and what to add to it, that makes a codeword of 69 or 70 symbols.
fn locate(symbols: &[u8]) -> Option<(usize, u8)>
    requires at_least_69 { 69 ≤ length symbols.now }
    requires at_most_70 { length symbols.now ≤ 70 }
    ensures is_the_single_error { result ≡ single_error symbols.now }
    ensures answers { Found symbols.now result }
{
    let sums = syndromes(symbols);
    let s = place(&sums);
    let e = if s < LAST { sums[0] } else { sums[5] };
    if s < symbols.len() && e != 0 && explains(&sums, symbols.len() - 64, s, e) {
        return Some((s, e));
    }
    None
}

// The symbols of a word in order, laid out in a buffer.
fn spread<'a>(word: &Word, buffer: &'a mut [u8; 70]) -> &'a [u8]
    ensures in_order { result.now ≡ symbols_of word.now }
    ensures at_least_69 { 69 ≤ length result.now }
    ensures at_most_70 { length result.now ≤ 70 }
{
    let check = word.check.symbols();
    let count = 64 + check.len();
    buffer[..64].copy_from_slice(&word.line);
    buffer[64..count].copy_from_slice(check);
    &buffer[..count]
}

// The number of the one wrong symbol of a word and what corrects it.
pub fn single_error(word: &Word) -> Option<(usize, u8)>
    ensures is_the_single_error { result ≡ single_error (symbols_of word.now) }
    ensures some_exactly_where_one_symbol_makes_a_codeword { Found (symbols_of word.now) result }
{
    locate(spread(word, &mut [0; 70]))
}
