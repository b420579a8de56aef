//! Why a file is not built.
use std::alloc::{AllocError, AllocFailed};

/// Why a file is not built.
#[derive(Clone, Copy, Debug, PartialEq, Eq)]
pub enum BuilderFault {
    /// It would have 2^32 bytes or more, or more headers or symbols than their counts can tell.
    TooLong,
    /// This change would reach past the end of the file.
    PastEnd { at: u64 },
    /// Memory ran out.
    Memory,
}

impl From<AllocError> for BuilderFault {
    ghost use Rattle.std.specs.Prelude.{◌≡◌};
    ghost use Rattle.elf_builder.specs.declared.fault.BuilderFault.TheVariants.{Memory};

    ghost from_gives = { λ _ e. e ≡ Memory };

    fn from(_: AllocError) -> Self {
        BuilderFault::Memory
    }
}

impl<T: Drop> From<AllocFailed<T>> for BuilderFault {
    ghost use Rattle.std.specs.Prelude.{◌≡◌};
    ghost use Rattle.elf_builder.specs.declared.fault.BuilderFault.TheVariants.{Memory};

    ghost from_gives = { λ _ e. e ≡ Memory };

    fn from(_: AllocFailed<T>) -> Self {
        BuilderFault::Memory
    }
}
