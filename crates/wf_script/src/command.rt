//! What a script says.
use std::alloc::{AllocError, AllocFailed};
use std::marker::Model;
use wf_flat::Actor;
use wf_outside::Text;

/// A command of a script. Counts are from 1 to 1,000,000, in `Mem` to 4,096; generations are from 0
/// to 1,023.
#[derive(Clone, Copy, Debug, PartialEq, Eq)]
pub enum Command {
    /// So many times: the hart goes on until its try ends, it stops, waits or is idle.
    Step { hart: u8, n: u64 },
    /// The actor makes so many ticks.
    Tick { actor: Actor, n: u64 },
    /// So many times: the next running hart, in turn, goes on as with `Step`.
    Run { n: u64 },
    /// The patch of this number comes in, in one call of the kernel's own actor; or, where it is
    /// begun, the call stands ready for ticks.
    Patch { index: u32, begin: bool },
    /// The kernel's own actor clones the generation.
    Create { generation: u32 },
    /// The kernel's own actor deletes the generation.
    Delete { generation: u32 },
    /// The generation's page tables are listed.
    Tables { generation: u32 },
    /// The hart's registers are listed.
    Regs { hart: u8 },
    /// So many doublewords from this address on are listed; it is a multiple of 8 below 2 ^ 38.
    Mem { va: u64, n: u64 },
}

/// A script: its commands in order, beside them the line of each, counted from 1, and the names of
/// its patches by their numbers.
#[derive(Drop)]
pub struct Script {
    pub commands: Vec<Command>,
    pub lines: Vec<u64>,
    pub patches: Vec<Text>,
}

impl Model for Script {
    ghost use Rattle.wf_script.specs.Commands.{ScriptValue};

    ghost Value = { ScriptValue };

    ghost view = { λ s. record {
      commands = s.commands.items;
      lines = s.lines.items;
      patches = s.patches.items;
    } };
}

/// Why a script was not read.
#[derive(Clone, Copy, Debug, PartialEq, Eq)]
pub enum ScriptFault {
    /// The first wrong word, or one past the line's end where a word is missing. Lines and columns
    /// count from 1, columns by bytes.
    At { line: u64, column: u64 },
    /// All commands together count for so many units, above 1,000,000; no more than 2 ^ 64 - 1 is
    /// told.
    Units { number: u64 },
    /// There are so many patches, above 64.
    Patches { number: u64 },
    /// Memory ran out.
    Memory,
}

impl From<AllocError> for ScriptFault {
    ghost use Rattle.std.specs.Prelude.{◌≡◌};
    ghost use Rattle.wf_script.specs.declared.command.ScriptFault.TheVariants.{Memory};

    ghost from_gives = { λ _ e. e ≡ Memory };

    fn from(_: AllocError) -> Self {
        ScriptFault::Memory
    }
}

impl<T: Drop> From<AllocFailed<T>> for ScriptFault {
    ghost use Rattle.std.specs.Prelude.{◌≡◌};
    ghost use Rattle.wf_script.specs.declared.command.ScriptFault.TheVariants.{Memory};

    ghost from_gives = { λ _ e. e ≡ Memory };

    fn from(_: AllocFailed<T>) -> Self {
        ScriptFault::Memory
    }
}

impl From<wf_outside::Memory> for ScriptFault {
    ghost use Rattle.std.specs.Prelude.{◌≡◌};
    ghost use Rattle.wf_script.specs.declared.command.ScriptFault.TheVariants.{Memory};

    ghost from_gives = { λ _ e. e ≡ Memory };

    fn from(_: wf_outside::Memory) -> Self {
        ScriptFault::Memory
    }
}
