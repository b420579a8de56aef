//! The names of registers.
ghost use Rattle.std.specs.Prelude.{◌≡◌, ◌<◌, IfSome};
ghost use Rattle.asm_lines.specs.Registers.{numbered, register_of};

use crate::numbers::decimal_of;

// The register of a letter and a number.
fn numbered(letter: u8, number: u128) -> Option<u8>
    ensures value { result ≡ numbered letter number }
    ensures few { IfSome result (λ r. r < 32) }
{
    match letter {
        b'x' if number < 32 => Some(number as u8),
        b'a' if number < 8 => Some(10 + number as u8),
        b's' if number < 2 => Some(8 + number as u8),
        b's' if number < 12 => Some(16 + number as u8),
        b't' if number < 3 => Some(5 + number as u8),
        b't' if number < 7 => Some(25 + number as u8),
        _ => None,
    }
}

// The register of a name, one of `x0` to `x31` or of the calling convention.
#[tactic(auto, unfolding(crate::specs::Registers::register_of))]
pub fn register_of(name: &[u8]) -> Option<u8>
    ensures value { result ≡ register_of name.now }
    ensures few { IfSome result (λ r. r < 32) }
{
    if name == b"zero".as_slice() {
        Some(0)
    } else if name == b"ra".as_slice() {
        Some(1)
    } else if name == b"sp".as_slice() {
        Some(2)
    } else if name == b"gp".as_slice() {
        Some(3)
    } else if name == b"tp".as_slice() {
        Some(4)
    } else if name == b"fp".as_slice() {
        Some(8)
    } else {
        let (letter, rest) = name.split_first()?;
        numbered(*letter, decimal_of(rest)?)
    }
}
