//! Numbers that are read.
ghost use Rattle.std.specs.Prelude.{◌≡◌, ◌<◌, ◌≤◌, ◌^◌, ℕ, IfSome, Some, length};
ghost use Rattle.std.specs.Fmt.{decimal};
ghost use Rattle.wf_text.specs.Numbers.{hex, last_hex, glyph_value, digit_of, number_from, number_of, any_hex};

// The value of a digit, in lower case; 16 for any other byte.
fn glyph_value(byte: u8) -> u8
    ensures value { result ≡ glyph_value byte }
    ensures small { result ≤ 16 }
{
    if byte >= b'0' && byte <= b'9' {
        return byte - b'0';
    }
    if byte >= b'a' && byte <= b'f' {
        return byte - b'a' + 10;
    }
    16
}

// The value of a hexadecimal digit of either case; 16 for any other byte.
fn digit_of(byte: u8) -> u8
    ensures value { result ≡ digit_of byte }
    ensures small { result ≤ 16 }
{
    glyph_value(byte.to_ascii_lowercase())
}

// The number that the digits write, leading zeros among them, where it is at most the most.
#[tactic(auto, using(crate::proofs::NumberLemmas::loop_steps))]
fn number_in(base: u8, bytes: &[u8], most: u64) -> Option<u64>
    requires { base ≤ 16 }
    ensures { result ≡ number_from glyph_value base most 0 bytes.now }
{
    let mut number = 0u64;
    for byte in bytes {
        let digit = glyph_value(*byte);
        if digit >= base {
            return None;
        }
        let more = number
            .checked_mul(u64::from(base))?
            .checked_add(u64::from(digit))?;
        if more > most {
            return None;
        }
        number = more;
    }
    Some(number)
}

#[tactic(auto, using(crate::proofs::NumberLemmas::of_steps))]
fn number_of(base: u8, bytes: &[u8], most: u64) -> Option<u64>
    requires { base ≤ 16 }
    ensures { result ≡ number_of base most bytes.now }
{
    if bytes.is_empty() {
        return None;
    }
    if bytes.len() > 1 && bytes[0] == b'0' {
        return None;
    }
    number_in(base, bytes, most)
}

/// The number whose decimal digits these are, without leading zeros, where it is at most the most.
pub fn decimal_of(bytes: &[u8], most: u64) -> Option<u64>
    ensures value { result ≡ number_of 10 most bytes.now }
    ensures read { IfSome result (λ n. (n ≤ most) × (bytes.now ≡ decimal n)) }
    ensures only { (n : ℕ) → n ≤ most → bytes.now ≡ decimal n → result ≡ Some n }
{
    number_of(10, bytes, most)
}

/// The number whose lower-case hexadecimal digits these are, without leading zeros, where it is at
/// most the most.
pub fn hex_of(bytes: &[u8], most: u64) -> Option<u64>
    ensures value { result ≡ number_of 16 most bytes.now }
    ensures read { IfSome result (λ n. (n ≤ most) × (bytes.now ≡ hex n)) }
    ensures only { (n : ℕ) → n ≤ most → bytes.now ≡ hex n → result ≡ Some n }
{
    number_of(16, bytes, most)
}

/// The number whose lower-case hexadecimal digits these are, where it is at most the most.
pub fn last_hex_of(bytes: &[u8], most: u64) -> Option<u64>
    ensures value { result ≡ number_from glyph_value 16 most 0 bytes.now }
    ensures read { IfSome result (λ n. (n ≤ most) × (bytes.now ≡ last_hex (length bytes.now) n)) }
    ensures only { (n width : ℕ) →
        n ≤ most → n < 16 ^ width → bytes.now ≡ last_hex width n → result ≡ Some n }
{
    number_in(16, bytes, most)
}

/// The number whose hexadecimal digits of either case these are, leading zeros among them, where it
/// is at most the most; none where there is no digit.
#[tactic(auto, using(crate::proofs::NumberLemmas::loop_steps))]
pub fn any_hex_of(bytes: &[u8], most: u64) -> Option<u64>
    ensures { result ≡ any_hex most bytes.now }
{
    if bytes.is_empty() {
        return None;
    }
    let mut number = 0u64;
    for byte in bytes {
        let digit = digit_of(*byte);
        if digit >= 16 {
            return None;
        }
        let more = number.checked_mul(16)?.checked_add(u64::from(digit))?;
        if more > most {
            return None;
        }
        number = more;
    }
    Some(number)
}
