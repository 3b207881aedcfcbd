// Arithmetic in the field of bytes: sums are XOR, products come from tables of powers and logarithms.
ghost use Rattle.std.specs.Prelude.{◌≡◌, ◌<◌, ◌≢◌};
ghost use Rattle.field.specs.Field.{mul, pow, Exponent, terms};
ghost use Rattle.field.specs.Laws.{Laws};

use crate::logs::LOGS;
use crate::powers::POWERS;

// Products of a byte with six powers.
pub type Terms = [u8; 6];

// α^k, as far as the table goes.
fn power(k: usize) -> u8
    requires within_the_table { k < 1530 }
    ensures is_the_power { result ≡ pow k }
{
    POWERS[k]
}

// The exponent of a byte other than 0.
fn exponent(a: u8) -> u8
    requires not_zero { a ≢ 0 }
    ensures below_the_order { result < 255 }
    ensures its_power_is_the_byte { pow result ≡ a }
{
    LOGS[a as usize]
}

// The product of two bytes.
pub fn product(a: u8, b: u8) -> u8
    ensures is_the_product { result ≡ mul a b }
{
    if a == 0 || b == 0 {
        return 0;
    }
    power(exponent(a) as usize + exponent(b) as usize)
}

// The exponent below 255 of a byte, which all but 0 have.
pub fn log(a: u8) -> Option<u8>
    ensures is_the_exponent_and_none_at_zero { Exponent a result }
{
    if a == 0 {
        return None;
    }
    Some(exponent(a))
}

// A byte times the powers 0 to 5 of α^t, at the price of one logarithm.
pub fn progression(a: u8, t: u8) -> Terms
    ensures is_the_byte_times_the_powers { result ≡ terms a t }
{
    if a == 0 {
        return [0, 0, 0, 0, 0, 0];
    }
    let i = exponent(a) as usize;
    let t = t as usize;
    [
        a,
        power(i + t),
        power(i + 2 * t),
        power(i + 3 * t),
        power(i + 4 * t),
        power(i + 5 * t),
    ]
}

// The unit. With it the bytes are a field, whose elements but 0 are the 255 powers of α.
pub fn unit() -> u8
    ensures the_bytes_are_a_field { Laws result }
{
    0x01
}
