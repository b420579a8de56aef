//! Why a source is not assembled.
use std::alloc::{AllocError, AllocFailed};
use wf_outside::Memory;

/// What a line of a source breaks.
#[derive(Clone, Copy, Debug, PartialEq, Eq)]
pub enum AsmRule {
    /// It is no line of the language, or its statement may not stand in its section.
    Syntax,
    /// It defines a label that an earlier line defines.
    Twice,
    /// It has a name that no line defines.
    Unknown,
    /// A number or a distance does not fit; or the label of `.size` is not in this section, at or
    /// before this place; or the section is longer than 2^32 bytes at this line; or it is the last
    /// line of a source whose file would have 2^32 bytes or more.
    Range,
}

/// Why a source is not assembled.
#[derive(Clone, Copy, Debug, PartialEq, Eq)]
pub enum AsmFault {
    /// Memory ran out.
    Memory,
    /// A line breaks a rule. Lines count from 1.
    At { line: u64, rule: AsmRule },
}

impl From<AllocError> for AsmFault {
    ghost use Rattle.std.specs.Prelude.{◌≡◌};
    ghost use Rattle.rv_asm.specs.declared.fault.AsmFault.TheVariants.{Memory};

    ghost from_gives = { λ _ e. e ≡ Memory };

    fn from(_: AllocError) -> Self {
        AsmFault::Memory
    }
}

impl<T: Drop> From<AllocFailed<T>> for AsmFault {
    ghost use Rattle.std.specs.Prelude.{◌≡◌};
    ghost use Rattle.rv_asm.specs.declared.fault.AsmFault.TheVariants.{Memory};

    ghost from_gives = { λ _ e. e ≡ Memory };

    fn from(_: AllocFailed<T>) -> Self {
        AsmFault::Memory
    }
}

impl From<Memory> for AsmFault {
    ghost use Rattle.std.specs.Prelude.{◌≡◌};
    ghost use Rattle.rv_asm.specs.declared.fault.AsmFault.TheVariants.{Memory};

    ghost from_gives = { λ _ e. e ≡ Memory };

    fn from(_: Memory) -> Self {
        AsmFault::Memory
    }
}
