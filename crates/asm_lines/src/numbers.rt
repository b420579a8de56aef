//! Numbers.
ghost use Rattle.std.specs.Prelude.{◌≡◌, ◌≤◌, ◌-◌, ◌^◌, ◌≤ℤ◌, ◌-ℤ◌, pos, negsuc, IfSome};
ghost use Rattle.std.specs.List.{list_all};
ghost use Rattle.asm_lines.specs.Bytes.{is_digit};
ghost use Rattle.asm_lines.specs.Numbers.{is_hex_digit, digit_value, value_of, is_decimal, decimal_of, hexadecimal_of, natural_of, number_of};

use crate::bytes::is_digit;

// What a greater number counts as. No field has room for it.
const GREATEST: u128 = 1 << 66;

fn is_hex_digit(byte: u8) -> bool
    ensures { result ≡ is_hex_digit byte }
{
    is_digit(byte) || (b'A' <= byte && byte <= b'F') || (b'a' <= byte && byte <= b'f')
}

// The value of a digit.
fn digit_value(byte: u8) -> u8
    ensures { result ≡ digit_value byte }
{
    if byte >= b'a' {
        byte - 87
    } else if byte >= b'A' {
        byte - 55
    } else {
        byte.saturating_sub(b'0')
    }
}

// The number of digits in a base.
fn value_of(base: u8, digits: &[u8]) -> u128
    ensures value { result ≡ value_of base digits.now }
    ensures bound { result ≤ 2 ^ 66 }
{
    let mut number: u128 = 0;
    for digit in digits {
        number = (number * u128::from(base) + u128::from(digit_value(*digit))).min(GREATEST);
    }
    number
}

fn are_digits(text: &[u8]) -> bool
    ensures { result ≡ list_all is_digit text.now }
{
    text.iter().all(|b| is_digit(*b))
}

pub fn are_hex_digits(text: &[u8]) -> bool
    ensures { result ≡ list_all is_hex_digit text.now }
{
    text.iter().all(|b| is_hex_digit(*b))
}

// Decimal digits, the first no 0 but where it is the only one.
fn is_decimal(text: &[u8]) -> bool
    ensures { result ≡ is_decimal text.now }
{
    text.len() > 0 && are_digits(text) && (text.len() == 1 || text[0] != b'0')
}

// A decimal number without a sign.
pub fn decimal_of(text: &[u8]) -> Option<u128>
    ensures value { result ≡ decimal_of text.now }
    ensures bound { IfSome result (λ n. n ≤ 2 ^ 66) }
{
    if is_decimal(text) {
        Some(value_of(10, text))
    } else {
        None
    }
}

// A hexadecimal number behind its 0x.
fn hexadecimal_of(digits: &[u8]) -> Option<u128>
    ensures value { result ≡ hexadecimal_of digits.now }
    ensures bound { IfSome result (λ n. n ≤ 2 ^ 66) }
{
    if digits.len() > 0 && are_hex_digits(digits) {
        Some(value_of(16, digits))
    } else {
        None
    }
}

// A number without a sign.
pub fn natural_of(text: &[u8]) -> Option<u128>
    ensures value { result ≡ natural_of text.now }
    ensures bound { IfSome result (λ n. n ≤ 2 ^ 66) }
{
    if text.starts_with(b"0x") {
        hexadecimal_of(&text[2..])
    } else {
        decimal_of(text)
    }
}

// The number as one with a sign.
fn signed(number: u128) -> i128
    requires { number ≤ 2 ^ 66 }
    ensures { result ≡ pos number }
{
    number as i128
}

// The number with the other sign.
pub fn negated(number: i128) -> i128
    requires { (negsuc (2 ^ 66 - 1) ≤ℤ number) × (number ≤ℤ pos (2 ^ 66)) }
    ensures { result ≡ pos 0 -ℤ number }
{
    0 - number
}

// A number.
pub fn number_of(text: &[u8]) -> Option<i128>
    ensures value { result ≡ number_of text.now }
    ensures low { IfSome result (λ z. negsuc (2 ^ 66 - 1) ≤ℤ z) }
    ensures high { IfSome result (λ z. z ≤ℤ pos (2 ^ 66)) }
{
    if text.starts_with(b"-") {
        let n = natural_of(&text[1..])?;
        Some(negated(signed(n)))
    } else {
        let n = natural_of(text)?;
        Some(signed(n))
    }
}
