//! Numbers, zeros and digits.
ghost use Rattle.std.specs.Prelude.{◌≡◌, ◌≤◌, ◌<◌, ◌*◌, ◌-◌, ◌^◌, ◌++◌, OnOk, Some, length, replicate};
ghost use Rattle.std.specs.Result.{result_ok};
ghost use Rattle.rv_inst.specs.Spelling.{low_bits};
ghost use Rattle.hex.specs.Hex.{decode_of};
ghost use Rattle.asm_bytes.specs.Bytes.{IsPut, has_room, nops, number_bytes};

use crate::PutFault;
use byteorder::{ByteOrder, LittleEndian};
use hex::decode_to_slice;
use std::alloc::AllocError;

// `nop`: `addi x0, x0, 0`.
const NOP: [u8; 4] = [0x13, 0x00, 0x00, 0x00];

// Half of how many numbers so many bytes have.
fn half(width: u8) -> u64
    requires { (1 ≤ width) × (width ≤ 8) }
    ensures value { result ≡ 2 ^ (8 * width - 1) }
    ensures whole { 2 * result ≡ 2 ^ (8 * width) }
    ensures bytes { 2 * result ≡ 256 ^ width }
    ensures small { result ≤ 2 ^ 63 }
{
    1 << (8 * width - 1)
}

// Whether a number has room in so many bytes.
fn has_room(width: u8, value: i128) -> bool
    ensures { result ≡ has_room width value }
{
    if width < 1 || 8 < width {
        return false;
    }
    let half = i128::from(half(width));
    -half <= value && value < 2 * half
}

// The lowest bytes of a number, as a number.
fn lowest(width: u8, value: i128) -> u64
    requires { (1 ≤ width) × (width ≤ 8) }
    ensures value { result ≡ low_bits (8 * width) value }
    ensures fits { result < 256 ^ width }
{
    value.rem_euclid(2 * i128::from(half(width))) as u64
}

/// Adds a number in so many bytes.
#[tactic(auto, unfolding(crate::specs::Bytes::number_bytes))]
pub fn put_number(out: &mut Vec<u8>, width: u8, value: i128) -> Result<(), PutFault>
    ensures { IsPut result out.old.items out.new.items (number_bytes width value) }
{
    if !has_room(width, value) {
        return Err(PutFault::Range);
    }
    let low = lowest(width, value);
    let mut bytes = [0; 8];
    LittleEndian::write_uint(&mut bytes, low, usize::from(width));
    Ok(out.extend_from_slice(&bytes[..usize::from(width)])?)
}

/// Adds so many zeros.
pub fn put_zeros(out: &mut Vec<u8>, count: u64) -> Result<(), AllocError>
    ensures { OnOk result (out.new.items ≡ out.old.items ++ replicate count 0) }
{
    match out.len().checked_add(count as usize) {
        Some(end) => out.resize(end, 0),
        None => Err(AllocError),
    }
}

/// Adds so many `nop`.
pub fn put_nops(out: &mut Vec<u8>, count: u64) -> Result<(), AllocError>
    ensures { OnOk result (out.new.items ≡ out.old.items ++ nops count) }
{
    for _ in 0..count {
        out.extend_from_slice(&NOP)?;
    }
    Ok(())
}

/// Adds the bytes of hexadecimal digits, two a byte.
pub fn put_hex(out: &mut Vec<u8>, digits: &[u8]) -> Result<(), PutFault>
    ensures { IsPut result out.old.items out.new.items (result_ok (decode_of digits.now)) }
{
    let start = out.len();
    put_zeros(out, digits.len() as u64 / 2)?;
    match decode_to_slice(digits, &mut out[start..]) {
        Ok(()) => Ok(()),
        Err(_) => {
            out.truncate(start);
            Err(PutFault::Range)
        }
    }
}
