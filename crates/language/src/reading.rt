// What single fields spell.
ghost use Rattle.std.specs.Prelude.{◌≡◌, ◌<◌, IfSome};
ghost use Rattle.language.specs.Spelling.{byte_in, delay_in, digit_value, hex_value, kind_in, number_in};

use layers::fault::FaultKind;

// The longest number has so many digits.
const MOST_DIGITS: usize = 5;

// The value of a decimal digit.
fn digit(b: u8) -> Option<usize>
    ensures is_its_value { result ≡ digit_value b }
    ensures is_below_ten { IfSome result (λ d. d < 10) }
{
    char::from(b).to_digit(10).map(|d| d as usize)
}

// The value of a hexadecimal digit in capitals; `to_digit` would read small letters too.
fn hex_digit(b: u8) -> Option<u8>
    ensures is_its_value { result ≡ hex_value b }
    ensures is_below_sixteen { IfSome result (λ d. d < 16) }
{
    match b {
        b'0'..=b'9' => Some(b - b'0'),
        b'A'..=b'F' => Some(b - b'A' + 10),
        _ => None,
    }
}

// A number of one to five decimal digits.
pub fn number(field: &[u8]) -> Option<usize>
    ensures is_what_it_spells { result ≡ number_in field.now }
{
    if field.is_empty() || field.len() > MOST_DIGITS {
        return None;
    }
    let mut n = 0;
    for b in field {
        n = 10 * n + digit(*b)?;
    }
    Some(n)
}

// A byte of two hexadecimal digits in capitals.
pub fn byte(field: &[u8]) -> Option<u8>
    ensures is_what_it_spells { result ≡ byte_in field.now }
{
    let [high, low] = field else {
        return None;
    };
    Some(16 * hex_digit(*high)? + hex_digit(*low)?)
}

// A delay: a number up to 255.
pub fn delay(field: &[u8]) -> Option<u8>
    ensures is_what_it_spells { result ≡ delay_in field.now }
{
    u8::try_from(number(field)?).ok()
}

// A kind of fault: a script is bytes and need not be text, so letters are matched as bytes.
pub fn kind(field: &[u8]) -> Option<FaultKind>
    ensures is_what_it_spells { result ≡ kind_in field.now }
{
    match field {
        b"F" => Some(FaultKind::Flip),
        b"O" => Some(FaultKind::StuckAtOne),
        b"Z" => Some(FaultKind::StuckAtZero),
        _ => None,
    }
}
