//! Why there is no end of a journal.
use wf_flat::Event;
use wf_outside::Memory;

/// Why a journal has no end.
#[derive(Clone, Copy, Debug, PartialEq, Eq)]
pub enum ReplayFault {
    /// The entry at this place, counted from 0, is the first that is not allowed; this is its
    /// event.
    Bad { index: u64, rule: Event },
    /// Memory ran out.
    Memory,
}

impl From<Memory> for ReplayFault {
    ghost use Rattle.std.specs.Prelude.{◌≡◌};
    ghost use Rattle.wf_replay.specs.declared.fault.ReplayFault.TheVariants as faults;

    ghost from_gives = { λ _ e. e ≡ faults.Memory };

    fn from(_: Memory) -> Self {
        ReplayFault::Memory
    }
}
