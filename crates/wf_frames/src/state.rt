//! The states of a frame, and why none are taken.
use wf_outside::Memory;

/// Whether a frame can be taken.
#[derive(Clone, Copy, Debug, PartialEq, Eq)]
pub enum FrameState {
    /// It can be taken.
    Free,
    /// It was taken, and has not been given back.
    InUse,
    /// It was given back in its last incarnation, and is never taken again.
    Worn,
}

/// A frame: whether it can be taken, and its incarnation, which is 0 before its first use as data.
#[derive(Clone, Copy, Debug, PartialEq, Eq)]
pub struct Frame {
    pub state: FrameState,
    pub incarnation: u64,
}

/// Why no frames were taken.
#[derive(Clone, Copy, Debug, PartialEq, Eq)]
pub enum TakeFault {
    /// Fewer frames are free than are needed.
    NoFrames { need: u64, free: u64 },
    /// Memory ran out.
    Memory,
}

impl From<Memory> for TakeFault {
    ghost use Rattle.std.specs.Prelude.{◌≡◌};
    ghost use Rattle.wf_frames.specs.declared.state.TakeFault.TheVariants.{Memory as NoMemory};

    ghost from_gives = { λ _ e. e ≡ NoMemory };

    fn from(_: Memory) -> Self {
        TakeFault::Memory
    }
}
