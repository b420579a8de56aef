//! Why a file is not read.
use std::alloc::{AllocError, AllocFailed};
use wf_outside::ElfRule;

/// Why a file is not read.
#[derive(Clone, Copy, Debug, PartialEq, Eq)]
pub enum ElfFault {
    /// The first rule that the file breaks, and the place of the field, header or entry that breaks
    /// it, in bytes from the start of the file.
    Rule { rule: ElfRule, at: u64 },
    /// Memory ran out.
    Memory,
}

impl From<AllocError> for ElfFault {
    ghost use Rattle.std.specs.Prelude.{◌≡◌};
    ghost use Rattle.elf_read.specs.declared.fault.ElfFault.TheVariants.{Memory};

    ghost from_gives = { λ _ e. e ≡ Memory };

    fn from(_: AllocError) -> Self {
        ElfFault::Memory
    }
}

impl<T: Drop> From<AllocFailed<T>> for ElfFault {
    ghost use Rattle.std.specs.Prelude.{◌≡◌};
    ghost use Rattle.elf_read.specs.declared.fault.ElfFault.TheVariants.{Memory};

    ghost from_gives = { λ _ e. e ≡ Memory };

    fn from(_: AllocFailed<T>) -> Self {
        ElfFault::Memory
    }
}
