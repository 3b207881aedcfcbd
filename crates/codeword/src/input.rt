// Reading the input: a line as hexadecimal digits, and changes of single symbols.
ghost use Rattle.std.specs.Prelude.{◌≡◌, ◌<◌, IfSome, IfOk};
ghost use Rattle.codeword.specs.Input.{hex, hex_byte, decimal as decimal_of, LineRead, change_of, change_in};

use codec::word::Line;
use thiserror::Error;

// the number of the last symbol of a full word
const LAST: usize = 69;

// What is wrong with an input line.
#[derive(Clone, Copy, PartialEq, Eq, Debug, Error)]
pub enum Problem {
    // a line of so many bytes
    #[error("a line has 128 hexadecimal digits, but this one has {0} characters")]
    Length(usize),
    // no byte in hexadecimal at this column, counted from 1, and the next
    #[error("no two hexadecimal digits from column {0} on")]
    NoByte(usize),
    // not a number, a blank and a byte in hexadecimal
    #[error("a change is a number of one or two digits, one blank and two hexadecimal digits")]
    Form,
    // no symbol has this number
    #[error("no symbol has this number: they are 0 to 69")]
    Range,
}

// The value of a hexadecimal digit, capital or small.
fn hex_digit(b: u8) -> Option<u32>
    ensures is_the_digit_s_value { result ≡ hex b }
{
    char::from(b).to_digit(16)
}

// The byte that two hexadecimal digits spell.
fn byte(high: u8, low: u8) -> Option<u8>
    ensures is_the_byte { result ≡ hex_byte high low }
{
    Some((16 * hex_digit(high)? + hex_digit(low)?) as u8)
}

// The value of a decimal digit.
fn decimal(b: u8) -> Option<u32>
    ensures is_the_digit_s_value { result ≡ decimal_of b }
    ensures is_below_ten { IfSome result (λ d. d < 10) }
{
    char::from(b).to_digit(10)
}

// A line of 64 bytes from 128 hexadecimal digits.
pub fn read_line(text: &[u8]) -> Result<Line, Problem>
    ensures reads_every_byte_or_names_the_first_fault { LineRead text.now result }
{
    if text.len() != 128 {
        return Err(Problem::Length(text.len()));
    }
    let mut line = [0; 64];
    let (pairs, _) = text.as_chunks::<2>();
    // no `zip` over `iter_mut`: of a loop over what it lends the checker knows nothing afterwards
    for (k, [high, low]) in pairs.iter().enumerate() {
        line[k] = byte(*high, *low).ok_or(Problem::NoByte(2 * k + 1))?;
    }
    Ok(line)
}

// The change that two decimal and two hexadecimal digits spell.
fn change(tens: u8, ones: u8, high: u8, low: u8) -> Result<(usize, u8), Problem>
    ensures is_the_change { result ≡ change_of (decimal_of tens) (decimal_of ones) (hex_byte high low) }
    ensures names_a_symbol { IfOk result (λ p. p.0 < 70) }
{
    let tens = decimal(tens).ok_or(Problem::Form)?;
    let ones = decimal(ones).ok_or(Problem::Form)?;
    let xor = byte(high, low).ok_or(Problem::Form)?;
    let symbol = (10 * tens + ones) as usize;
    if symbol > LAST {
        return Err(Problem::Range);
    }
    Ok((symbol, xor))
}

// The number of a symbol and what is added to it, from a number of one or two digits, a blank and a byte in hexadecimal.
pub fn read_change(text: &[u8]) -> Result<(usize, u8), Problem>
    ensures is_the_change { result ≡ change_in text.now }
    ensures names_a_symbol { IfOk result (λ p. p.0 < 70) }
{
    match text {
        [ones, b' ', high, low] => change(b'0', *ones, *high, *low),
        [tens, ones, b' ', high, low] => change(*tens, *ones, *high, *low),
        _ => Err(Problem::Form),
    }
}
