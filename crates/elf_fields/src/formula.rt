//! The values of relocations, over whole numbers.
ghost use Rattle.std.specs.Prelude.{◌≡◌};
ghost use Rattle.elf_fields.specs.Formulas.{value_of};
ghost use Rattle.rv_alu.specs.Arithmetic.{signed};
ghost use Rattle.rv_inst.specs.Spelling.{low_bits};

use crate::numbers::low_bits;

/// How the value is made of the operands.
///
/// RISC-V ELF psABI, "Relocations", "Calculation Symbols".
#[derive(Clone, Copy, Debug, PartialEq, Eq)]
pub enum Formula {
    /// S + A.
    Absolute,
    /// S + A, of which the low 64 bits are read as a two's complement number.
    Signed,
    /// S + A - P.
    Relative,
    /// V + S + A.
    Added,
    /// V - S - A.
    Subtracted,
}

/// What a formula is about: the symbol's address S, the addend A, the address P of the field, and
/// the number V that stands in the field.
///
/// RISC-V ELF psABI, "Relocations", "Calculation Symbols".
#[derive(Clone, Copy, Debug, PartialEq, Eq)]
pub struct Operands {
    pub symbol: u64,
    pub addend: i64,
    pub place: u64,
    pub old: u64,
}

impl Formula {
    /// The value, a whole number.
    pub fn value(self, operands: Operands) -> i128
        ensures { result ≡ value_of self operands }
    {
        let symbol = i128::from(operands.symbol);
        let addend = i128::from(operands.addend);
        match self {
            Formula::Absolute => symbol + addend,
            Formula::Signed => signed(symbol + addend),
            Formula::Relative => symbol + addend - i128::from(operands.place),
            Formula::Added => i128::from(operands.old) + symbol + addend,
            Formula::Subtracted => i128::from(operands.old) - symbol - addend,
        }
    }
}

// The low 64 bits, read as a two's complement number.
fn signed(value: i128) -> i128
    ensures { result ≡ signed 64 (low_bits 64 value) }
{
    let low = i128::from(low_bits(64, value));
    if low < 1 << 63 { low } else { low - (1 << 64) }
}
