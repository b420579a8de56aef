//! Units of instructions that ask for no access and no call.
ghost use Rattle.std.specs.Prelude.{◌≤◌, Some};
ghost use Rattle.wf_flat.specs.Steps.{OfHart};
ghost use Rattle.wf_stepping.specs.Stepping.{FindsAt, HasMadeUnit, IsRun, Rests};

use rv_inst::Arch;
use wf_process::Process;
use wf_units::runs_are_units;

/// A hart runs the instruction of the word at its pc, which asks for no access and no call, and
/// leaves these registers.
pub fn run(process: &mut Process, hart: u8, pc: u64, word: u32, next: Arch)
    requires room { 2 ≤ process.old.room }
    requires rests { Rests process.old }
    requires found { FindsAt process.old hart pc (Some word) }
    requires runs { OfHart process.old.moment.flat hart (λ state. IsRun state.arch word next) }
    ensures { HasMadeUnit hart process.old process.new }
{
    runs_are_units();
    process.keeps_sound();
    process.fetch(hart, pc, word);
    process.end(hart, next);
}
