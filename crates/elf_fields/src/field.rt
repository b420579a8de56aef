//! The fields that relocations change.
ghost use Rattle.std.specs.Prelude.{◌≡◌, ◌<◌, ◌≤◌, ◌*◌, ◌^◌};
ghost use Rattle.elf_fields.specs.Fields.{width_of, put_in};

use crate::formats::{with_branch, with_immediate, with_jump, with_store, with_upper};
use crate::numbers::low_bits;

/// The field that a relocation changes, in a number of 1, 2, 4 or 8 bytes, lowest byte first.
///
/// RISC-V ELF psABI, "Relocations", "Field Symbols".
#[derive(Clone, Copy, Debug, PartialEq, Eq)]
pub enum Field {
    /// A byte.
    Byte,
    /// A number of 16 bits.
    Half,
    /// A number of 32 bits.
    Word,
    /// A number of 64 bits.
    Doubleword,
    /// The low six bits of a byte.
    LowSix,
    /// The immediate of format U.
    Upper,
    /// The immediate of format I.
    Immediate,
    /// The immediate of format S.
    Store,
    /// The immediate of format B.
    Branch,
    /// The immediate of format J.
    Jump,
    /// The immediate of format U of an instruction, and that of format I of the next.
    Call,
}

impl Field {
    /// How many bytes the number has in which the field stands.
    pub fn width(self) -> usize
        ensures value { result ≡ width_of self }
        ensures some { (1 ≤ result) }
        ensures few { result ≤ 8 }
    {
        match self {
            Field::Byte | Field::LowSix => 1,
            Field::Half => 2,
            Field::Word | Field::Upper | Field::Immediate => 4,
            Field::Store | Field::Branch | Field::Jump => 4,
            Field::Doubleword | Field::Call => 8,
        }
    }

    /// The number after the value was put into the field.
    pub fn put_in(self, value: i128, old: u64) -> u64
        requires { old < 2 ^ (8 * width_of self) }
        ensures value { result ≡ put_in self value old }
        ensures fits { result < 2 ^ (8 * width_of self) }
    {
        match self {
            Field::Byte => low_bits(8, value),
            Field::Half => low_bits(16, value),
            Field::Word => low_bits(32, value),
            Field::Doubleword => low_bits(64, value),
            Field::LowSix => old / 64 * 64 + low_bits(6, value),
            Field::Upper => u64::from(with_upper(old as u32, value)),
            Field::Immediate => u64::from(with_immediate(old as u32, value)),
            Field::Store => u64::from(with_store(old as u32, value)),
            Field::Branch => u64::from(with_branch(old as u32, value)),
            Field::Jump => u64::from(with_jump(old as u32, value)),
            Field::Call => with_call(old, value),
        }
    }
}

// Two instructions with this distance.
fn with_call(old: u64, value: i128) -> u64
    ensures value { result ≡ put_in Field.Call value old }
{
    let first = with_upper((old % (1 << 32)) as u32, value);
    let second = with_immediate((old / (1 << 32)) as u32, value);
    u64::from(first) + u64::from(second) * (1 << 32)
}
