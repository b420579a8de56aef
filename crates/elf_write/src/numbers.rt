//! Numbers in a file, lowest byte first.
ghost use Rattle.std.specs.Prelude.{◌≡◌, ◌++◌, ◌-◌, OnOk, length, replicate};
ghost use Rattle.byteorder.specs.Endian.{little_bytes};
ghost use Rattle.elf_write.specs.Places.{halves, placed, words, xwords};

use byteorder::{ByteOrder, LittleEndian};
use wf_outside::Memory;

// Adds a number of 16 bits.
fn put_u16(out: &mut Vec<u8>, number: u16) -> Result<(), Memory>
    ensures { OnOk result (out.new.items ≡ out.old.items ++ little_bytes 2 number) }
{
    let mut bytes = [0; 2];
    LittleEndian::write_u16(&mut bytes, number);
    Ok(out.extend_from_slice(&bytes)?)
}

// Adds a number of 32 bits.
fn put_u32(out: &mut Vec<u8>, number: u32) -> Result<(), Memory>
    ensures { OnOk result (out.new.items ≡ out.old.items ++ little_bytes 4 number) }
{
    let mut bytes = [0; 4];
    LittleEndian::write_u32(&mut bytes, number);
    Ok(out.extend_from_slice(&bytes)?)
}

// Adds a number of 64 bits.
fn put_u64(out: &mut Vec<u8>, number: u64) -> Result<(), Memory>
    ensures { OnOk result (out.new.items ≡ out.old.items ++ little_bytes 8 number) }
{
    let mut bytes = [0; 8];
    LittleEndian::write_u64(&mut bytes, number);
    Ok(out.extend_from_slice(&bytes)?)
}

// Adds numbers of 16 bits.
pub fn put_halves(out: &mut Vec<u8>, numbers: &[u16]) -> Result<(), Memory>
    ensures { OnOk result (out.new.items ≡ out.old.items ++ halves numbers.now) }
{
    for number in numbers {
        put_u16(out, *number)?;
    }
    Ok(())
}

// Adds numbers of 32 bits.
pub fn put_words(out: &mut Vec<u8>, numbers: &[u32]) -> Result<(), Memory>
    ensures { OnOk result (out.new.items ≡ out.old.items ++ words numbers.now) }
{
    for number in numbers {
        put_u32(out, *number)?;
    }
    Ok(())
}

// Adds numbers of 64 bits.
pub fn put_xwords(out: &mut Vec<u8>, numbers: &[u64]) -> Result<(), Memory>
    ensures { OnOk result (out.new.items ≡ out.old.items ++ xwords numbers.now) }
{
    for number in numbers {
        put_u64(out, *number)?;
    }
    Ok(())
}

// Adds bytes, so that they stand at a place or, where that is passed already, at the end.
#[tactic(auto, unfolding(crate::specs::Places::placed))]
pub fn place(out: &mut Vec<u8>, at: usize, bytes: &[u8]) -> Result<(), Memory>
    ensures { OnOk result (out.new.items ≡ placed at bytes.now out.old.items) }
{
    if out.len() < at {
        out.resize(at, 0)?;
    }
    Ok(out.extend_from_slice(bytes)?)
}
