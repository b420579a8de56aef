//! Why a statement puts nothing.
use std::alloc::AllocError;

/// Why a statement puts nothing.
#[derive(Clone, Copy, Debug, PartialEq, Eq)]
pub enum PutFault {
    /// A number or a distance does not fit, or the statement may not stand in this section.
    Range,
    /// Memory ran out.
    Memory,
}

impl From<AllocError> for PutFault {
    ghost use Rattle.std.specs.Prelude.{◌≡◌};
    ghost use Rattle.asm_bytes.specs.declared.fault.PutFault.TheVariants.{Memory};

    ghost from_gives = { λ _ e. e ≡ Memory };

    fn from(_: AllocError) -> Self {
        PutFault::Memory
    }
}
