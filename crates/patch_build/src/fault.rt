//! Why a patch is not built.
use patch_rules::{LineRule, LinkRule, SectionRule};
use std::alloc::{AllocError, AllocFailed};
use wf_outside::Memory as OutOfMemory;

/// Why a patch is not built.
#[derive(Clone, Copy, Debug, PartialEq, Eq)]
pub enum BuildFault {
    /// The first section that is to be loaded and breaks a rule, by its number.
    Section {
        index: u32,
        rule: SectionRule,
    },
    /// The first symbol that is still to be given a place, by its number.
    Common {
        symbol: u32,
    },
    /// The patch has too many pages, or they would pass those of data: how many it has, or 2^64 - 1
    /// where that is more.
    Area {
        pages: u64,
    },
    /// The first line of the patch's file, counted from 1, that can't replace a function.
    Line {
        line: u64,
        rule: LineRule,
    },
    /// The first relocation that can't be applied: the number of its relocation section, its place
    /// there from 0, and why.
    Link {
        group: u32,
        index: u64,
        rule: LinkRule,
    },
    /// Memory ran out.
    Memory,
}

impl From<AllocError> for BuildFault {
    ghost use Rattle.std.specs.Prelude.{◌≡◌};
    ghost use Rattle.patch_build.specs.declared.fault.BuildFault.TheVariants.{Memory};

    ghost from_gives = { λ _ e. e ≡ Memory };

    fn from(_: AllocError) -> Self {
        BuildFault::Memory
    }
}

impl<T: Drop> From<AllocFailed<T>> for BuildFault {
    ghost use Rattle.std.specs.Prelude.{◌≡◌};
    ghost use Rattle.patch_build.specs.declared.fault.BuildFault.TheVariants.{Memory};

    ghost from_gives = { λ _ e. e ≡ Memory };

    fn from(_: AllocFailed<T>) -> Self {
        BuildFault::Memory
    }
}

impl From<OutOfMemory> for BuildFault {
    ghost use Rattle.std.specs.Prelude.{◌≡◌};
    ghost use Rattle.patch_build.specs.declared.fault.BuildFault.TheVariants.{Memory};

    ghost from_gives = { λ _ e. e ≡ Memory };

    fn from(_: OutOfMemory) -> Self {
        BuildFault::Memory
    }
}
