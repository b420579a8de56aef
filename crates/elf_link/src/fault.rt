//! Why a section is not relocated.
use patch_rules::LinkRule;
use std::alloc::{AllocError, AllocFailed};
use wf_outside::Memory as OutOfMemory;

/// Why a section is not relocated.
#[derive(Clone, Copy, Debug, PartialEq, Eq)]
pub enum LinkFault {
    /// The first entry that can't be applied: the number of its relocation section, its place there
    /// from 0, and why.
    Rule {
        group: u32,
        index: u64,
        rule: LinkRule,
    },
    /// Memory ran out.
    Memory,
}

impl From<AllocError> for LinkFault {
    ghost use Rattle.std.specs.Prelude.{◌≡◌};
    ghost use Rattle.elf_link.specs.declared.fault.LinkFault.TheVariants.{Memory};

    ghost from_gives = { λ _ e. e ≡ Memory };

    fn from(_: AllocError) -> Self {
        LinkFault::Memory
    }
}

impl<T: Drop> From<AllocFailed<T>> for LinkFault {
    ghost use Rattle.std.specs.Prelude.{◌≡◌};
    ghost use Rattle.elf_link.specs.declared.fault.LinkFault.TheVariants.{Memory};

    ghost from_gives = { λ _ e. e ≡ Memory };

    fn from(_: AllocFailed<T>) -> Self {
        LinkFault::Memory
    }
}

impl From<OutOfMemory> for LinkFault {
    ghost use Rattle.std.specs.Prelude.{◌≡◌};
    ghost use Rattle.elf_link.specs.declared.fault.LinkFault.TheVariants.{Memory};

    ghost from_gives = { λ _ e. e ≡ Memory };

    fn from(_: OutOfMemory) -> Self {
        LinkFault::Memory
    }
}
