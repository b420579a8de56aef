//! What each type of relocation does.
ghost use Rattle.std.specs.Prelude.{◌≡◌};
ghost use Rattle.elf_fields.specs.Relocations.{relocation_of};
ghost use Rattle.elf_fields.specs.declared.relocation.Relocation.TheVariants.{Put};

use crate::constants::*;
use crate::{Bounds, Field, Formula};

/// What a type of relocation does.
///
/// RISC-V ELF psABI, "Relocations".
#[derive(Clone, Copy, Debug, PartialEq, Eq)]
pub enum Relocation {
    /// It changes nothing, and names no symbol: it is advice to a linker that relaxes.
    Nothing,
    /// It puts the value of a formula into a field, where the value is within bounds.
    Put {
        formula: Formula,
        field: Field,
        bounds: Bounds,
    },
    /// It puts the value of the R_RISCV_PCREL_HI20 at its label into a field.
    Paired {
        field: Field,
    },
}

// The value of the formula is put into the field, within bounds.
fn put(formula: Formula, field: Field, bounds: Bounds) -> Relocation
    ensures { result ≡ Put formula field bounds }
{
    Relocation::Put {
        formula,
        field,
        bounds,
    }
}

/// What the type with this number does, or `None` where the number is none of the table's.
///
/// RISC-V ELF psABI, "Relocations".
pub fn relocation_of(n: u32) -> Option<Relocation>
    ensures { result ≡ relocation_of n }
{
    match n {
        R_RISCV_NONE | R_RISCV_ALIGN | R_RISCV_RELAX => Some(Relocation::Nothing),
        R_RISCV_32 => Some(put(Formula::Absolute, Field::Word, Bounds::Word)),
        R_RISCV_64 => Some(put(Formula::Absolute, Field::Doubleword, Bounds::Any)),
        R_RISCV_BRANCH => Some(put(Formula::Relative, Field::Branch, Bounds::Branch)),
        R_RISCV_JAL => Some(put(Formula::Relative, Field::Jump, Bounds::Jump)),
        R_RISCV_CALL | R_RISCV_CALL_PLT => Some(put(
            Formula::Relative,
            Field::Call,
            Bounds::EvenPair,
        )),
        R_RISCV_PCREL_HI20 => Some(put(Formula::Relative, Field::Upper, Bounds::Pair)),
        R_RISCV_PCREL_LO12_I => Some(Relocation::Paired {
            field: Field::Immediate,
        }),
        R_RISCV_PCREL_LO12_S => Some(Relocation::Paired {
            field: Field::Store,
        }),
        R_RISCV_HI20 => Some(put(Formula::Signed, Field::Upper, Bounds::Pair)),
        R_RISCV_LO12_I => Some(put(Formula::Absolute, Field::Immediate, Bounds::Any)),
        R_RISCV_LO12_S => Some(put(Formula::Absolute, Field::Store, Bounds::Any)),
        R_RISCV_ADD8 => Some(put(Formula::Added, Field::Byte, Bounds::Any)),
        R_RISCV_ADD16 => Some(put(Formula::Added, Field::Half, Bounds::Any)),
        R_RISCV_ADD32 => Some(put(Formula::Added, Field::Word, Bounds::Any)),
        R_RISCV_ADD64 => Some(put(Formula::Added, Field::Doubleword, Bounds::Any)),
        R_RISCV_SUB8 => Some(put(Formula::Subtracted, Field::Byte, Bounds::Any)),
        R_RISCV_SUB16 => Some(put(Formula::Subtracted, Field::Half, Bounds::Any)),
        R_RISCV_SUB32 => Some(put(Formula::Subtracted, Field::Word, Bounds::Any)),
        R_RISCV_SUB64 => Some(put(Formula::Subtracted, Field::Doubleword, Bounds::Any)),
        R_RISCV_SUB6 => Some(put(Formula::Subtracted, Field::LowSix, Bounds::Any)),
        R_RISCV_SET6 => Some(put(Formula::Absolute, Field::LowSix, Bounds::Any)),
        R_RISCV_SET8 => Some(put(Formula::Absolute, Field::Byte, Bounds::Any)),
        R_RISCV_SET16 => Some(put(Formula::Absolute, Field::Half, Bounds::Any)),
        R_RISCV_SET32 => Some(put(Formula::Absolute, Field::Word, Bounds::Any)),
        R_RISCV_32_PCREL => Some(put(Formula::Relative, Field::Word, Bounds::SignedWord)),
        _ => None,
    }
}
