//! Names on a line of their own, whatever their bytes are.
ghost use Rattle.std.specs.Prelude.{◌≡◌, ◌++◌, ◌<◌, false, OnOk, IfOk};
ghost use Rattle.std.specs.Fmt.{digit_glyph};
ghost use Rattle.std.specs.List.{flat_map};
ghost use Rattle.elf_dump.specs.Escapes.{is_shown, escaped_byte};

use std::alloc::{AllocError, Global};

// The byte is shown as it is.
fn is_shown(byte: u8) -> bool
    ensures { result ≡ is_shown byte }
{
    0x20 <= byte && byte <= 0x7E && byte != b'\\'
}

// A hexadecimal digit, in lower case.
fn digit(value: u8) -> u8
    requires { value < 16 }
    ensures { result ≡ digit_glyph false value }
{
    if value < 10 {
        b'0' + value
    } else {
        b'a' + (value - 10)
    }
}

// One more byte of a name, as it is printed.
fn push_escaped(out: &mut Vec<u8>, byte: u8) -> Result<(), AllocError>
    ensures { OnOk result (out.new.items ≡ out.old.items ++ escaped_byte byte) }
{
    if is_shown(byte) {
        out.extend_from_slice(&[byte])
    } else {
        out.extend_from_slice(&[b'\\', b'x', digit(byte / 16), digit(byte % 16)])
    }
}

/// A name as it is printed: each byte outside 0x20 to 0x7E, and the backslash, as `\xNN`, so that
/// two names never look alike and none holds a newline.
pub fn escape(alloc: Global, name: &[u8]) -> Result<Vec<u8>, AllocError>
    ensures { IfOk result (λ out. out.items ≡ flat_map escaped_byte name.now) }
{
    let mut out = Vec::new(alloc);
    for byte in name {
        push_escaped(&mut out, *byte)?;
    }
    Ok(out)
}
