//! Units of loads.
ghost use Rattle.std.specs.Prelude.{◌≤◌, Some};
ghost use Rattle.wf_flat.specs.Steps.{OfHart};
ghost use Rattle.wf_stepping.specs.Stepping.{FindsAt, HasMadeUnit, IsTextLoad, Rests};

use rv_inst::Arch;
use wf_process::Process;
use wf_units::text_loads_are_units;

/// A load: so many bytes at an address, and the number that they are.
#[derive(Clone, Copy, Debug, PartialEq, Eq)]
pub struct Load {
    pub va: u64,
    pub width: u8,
    pub value: u64,
}

/// A hart runs the load of the word at its pc, of bytes in the text of its generation, which leaves
/// these registers.
pub fn load_text(process: &mut Process, hart: u8, pc: u64, word: u32, load: Load, next: Arch)
    requires room { 3 ≤ process.old.room }
    requires rests { Rests process.old }
    requires found { FindsAt process.old hart pc (Some word) }
    requires loads { OfHart process.old.moment.flat hart
        (λ state. IsTextLoad process.old.moment.flat state.generation state.arch word load next) }
    ensures { HasMadeUnit hart process.old process.new }
{
    text_loads_are_units();
    process.keeps_sound();
    process.fetch(hart, pc, word);
    process.look(hart, load.va, load.width, load.value);
    process.end(hart, next);
}
