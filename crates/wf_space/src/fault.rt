//! Why no plan was made.
use wf_outside::{Memory, Refusal};

/// Why no plan was made.
#[derive(Clone, Copy, Debug, PartialEq, Eq)]
pub enum SpaceFault {
    /// The call is refused.
    Refused(Refusal),
    /// Memory ran out.
    Memory,
}

impl From<Memory> for SpaceFault {
    ghost use Rattle.std.specs.Prelude.{◌≡◌};
    ghost use Rattle.wf_space.specs.declared.fault.SpaceFault.TheVariants.{Memory as NoMemory};

    ghost from_gives = { λ _ e. e ≡ NoMemory };

    fn from(_: Memory) -> Self {
        SpaceFault::Memory
    }
}

impl From<Refusal> for SpaceFault {
    ghost use Rattle.std.specs.Prelude.{◌≡◌};
    ghost use Rattle.wf_space.specs.declared.fault.SpaceFault.TheVariants.{Refused as IsRefused};

    ghost from_gives = { λ reason e. e ≡ IsRefused reason };

    fn from(reason: Refusal) -> Self {
        SpaceFault::Refused(reason)
    }
}
