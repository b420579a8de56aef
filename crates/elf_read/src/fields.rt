//! Numbers in a file, lowest byte first.
ghost use Rattle.std.specs.Prelude.{◌≡◌, ◌≤◌, ◌+◌, length};
ghost use Rattle.elf_read.specs.Fields.{field};

use byteorder::{ByteOrder, LittleEndian};

// The field of 16 bits at a place.
#[tactic(auto, unfolding(crate::specs::Fields::field))]
pub fn u16_at(bytes: &[u8], at: usize) -> u16
    requires { at + 2 ≤ length bytes.now }
    ensures { result ≡ field 2 at bytes.now }
{
    LittleEndian::read_u16(&bytes[at..])
}

// The field of 32 bits at a place.
#[tactic(auto, unfolding(crate::specs::Fields::field))]
pub fn u32_at(bytes: &[u8], at: usize) -> u32
    requires { at + 4 ≤ length bytes.now }
    ensures { result ≡ field 4 at bytes.now }
{
    LittleEndian::read_u32(&bytes[at..])
}

// The field of 64 bits at a place.
#[tactic(auto, unfolding(crate::specs::Fields::field))]
pub fn u64_at(bytes: &[u8], at: usize) -> u64
    requires { at + 8 ≤ length bytes.now }
    ensures { result ≡ field 8 at bytes.now }
{
    LittleEndian::read_u64(&bytes[at..])
}
