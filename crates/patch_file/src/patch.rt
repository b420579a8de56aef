//! What a patch's file says.
use std::alloc::{AllocError, AllocFailed};
use std::marker::Model;
use wf_outside::Text;

/// A function that is replaced and the one that takes its place, by their names, and the number of
/// the line that says so, counted from 1. Names have bytes from 0x21 to 0x7E.
#[derive(Drop)]
pub struct Replace {
    pub old: Text,
    pub new: Text,
    pub line: u64,
}

/// A patch's file: the name of its object, and what it replaces, in the order of the lines.
#[derive(Drop)]
pub struct PatchFile {
    pub object: Text,
    pub replaces: Vec<Replace>,
}

impl Model for PatchFile {
    ghost use Rattle.patch_file.specs.Patches.{PatchValue};

    ghost Value = { PatchValue };

    ghost view = { λ p. record { object = p.object; replaces = p.replaces.items } };
}

/// Why a patch's file was not read.
#[derive(Clone, Copy, Debug, PartialEq, Eq)]
pub enum PatchFault {
    /// The first line, counted from 1, that is not as it should be, or one past the last where the
    /// header's or the object's is missing.
    Line { line: u64 },
    /// Memory ran out.
    Memory,
}

impl From<AllocError> for PatchFault {
    ghost use Rattle.std.specs.Prelude.{◌≡◌};
    ghost use Rattle.patch_file.specs.declared.patch.PatchFault.TheVariants.{Memory};

    ghost from_gives = { λ _ e. e ≡ Memory };

    fn from(_: AllocError) -> Self {
        PatchFault::Memory
    }
}

impl<T: Drop> From<AllocFailed<T>> for PatchFault {
    ghost use Rattle.std.specs.Prelude.{◌≡◌};
    ghost use Rattle.patch_file.specs.declared.patch.PatchFault.TheVariants.{Memory};

    ghost from_gives = { λ _ e. e ≡ Memory };

    fn from(_: AllocFailed<T>) -> Self {
        PatchFault::Memory
    }
}

impl From<wf_outside::Memory> for PatchFault {
    ghost use Rattle.std.specs.Prelude.{◌≡◌};
    ghost use Rattle.patch_file.specs.declared.patch.PatchFault.TheVariants.{Memory};

    ghost from_gives = { λ _ e. e ≡ Memory };

    fn from(_: wf_outside::Memory) -> Self {
        PatchFault::Memory
    }
}
