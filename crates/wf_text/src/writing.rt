//! Numbers that are written.
ghost use Rattle.std.specs.Prelude.{◌≡◌, ◌++◌, ◌<◌, ◌≤◌, OnOk, drop, false};
ghost use Rattle.std.specs.Fmt.{decimal, digit_glyph};
ghost use Rattle.wf_text.specs.Numbers.{hex, last_hex};

use itoa::Buffer;
use std::alloc::AllocError;

const GLYPHS: [u8; 16] = *b"0123456789abcdef";

// The digit of a value.
fn glyph(value: u64) -> u8
    requires { value < 16 }
    ensures { result ≡ digit_glyph false value }
{
    GLYPHS[value as usize]
}

// Writes the digits so that they end at the end, and returns where they start.
#[tactic(auto, using(crate::proofs::WriteLemmas::hex_steps))]
fn write_hex(n: u64, buffer: &mut [u8; 16]) -> usize
    ensures within { result ≤ 16 }
    ensures written { drop result buffer.new ≡ hex n }
{
    let mut left = n;
    let mut at = 16;
    while left >= 16 {
        at -= 1;
        buffer[at] = glyph(left % 16);
        left /= 16;
    }
    at -= 1;
    buffer[at] = glyph(left);
    at
}

/// Appends the number in decimal. Most numbers of a journal have one digit.
pub fn push_decimal(out: &mut Vec<u8>, n: u64) -> Result<(), AllocError>
    ensures { OnOk result (out.new.items ≡ out.old.items ++ decimal n) }
{
    if n < 10 {
        out.push(b'0' + n as u8)?;
        return Ok(());
    }
    let mut buffer = Buffer::new();
    out.extend_from_slice(buffer.format(n).as_bytes())
}

/// Appends the number in lower-case hexadecimal, without leading zeros.
pub fn push_hex(out: &mut Vec<u8>, n: u64) -> Result<(), AllocError>
    ensures { OnOk result (out.new.items ≡ out.old.items ++ hex n) }
{
    let mut buffer = [0; 16];
    let at = write_hex(n, &mut buffer);
    out.extend_from_slice(&buffer[at..])
}

/// Appends the last so many lower-case hexadecimal digits of the number.
#[tactic(auto, using(crate::proofs::WriteLemmas::last_steps))]
pub fn push_last_hex(out: &mut Vec<u8>, width: usize, n: u64) -> Result<(), AllocError>
    requires { width ≤ 16 }
    ensures { OnOk result (out.new.items ≡ out.old.items ++ last_hex width n) }
{
    let mut buffer = [0; 16];
    let mut left = n;
    for place in 0..width {
        buffer[15 - place] = glyph(left % 16);
        left /= 16;
    }
    out.extend_from_slice(&buffer[16 - width..])
}
