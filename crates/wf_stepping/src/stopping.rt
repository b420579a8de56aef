//! Units of harts that have stopped, or that a trap stops.
ghost use Rattle.std.specs.Prelude.{◌≢◌, ◌<◌, ◌≤◌, ◌∷◌, [], None, Some};
ghost use Rattle.rv_inst.specs.Decoding.{inst_of};
ghost use Rattle.wf_flat.specs.Steps.{OfHart};
ghost use Rattle.wf_flat.specs.declared.state.Life.TheVariants.{Running};
ghost use Rattle.wf_stepping.specs.Stepping.{FindsAt, HasMadeUnit, HasUnit, IsFault, IsTrapOf, Rests};

use rv_inst::causes::INSTRUCTION_PAGE_FAULT;
use wf_flat::{Actor, Event};
use wf_process::Process;
use wf_units::{
    faults_are_units, idles_are_units, illegal_words_are_units, lost_fetches_are_units,
    traps_are_units,
};

/// A hart that has stopped idles.
pub fn idle(process: &mut Process, hart: u8)
    requires room { 0 < process.old.room }
    requires rests { Rests process.old }
    requires stopped { OfHart process.old.moment.flat hart (λ state. state.life ≢ Running) }
    ensures { HasMadeUnit hart process.old process.new }
{
    idles_are_units();
    process.keeps_sound();
    process.idle(Actor::Hart(hart));
}

/// A hart finds no word at its pc, and is stopped.
pub fn lose_fetch(process: &mut Process, hart: u8, pc: u64)
    requires room { 2 ≤ process.old.room }
    requires rests { Rests process.old }
    requires none { FindsAt process.old hart pc None }
    ensures { HasMadeUnit hart process.old process.new }
{
    lost_fetches_are_units();
    process.keeps_sound();
    process.enter(Actor::Hart(hart));
    process.trap(hart, INSTRUCTION_PAGE_FAULT, pc);
}

// A hart fetches the word at its pc, and is stopped by a trap.
fn stop(process: &mut Process, hart: u8, pc: u64, word: u32, cause: u8, value: u64)
    requires room { 3 ≤ process.old.room }
    requires rests { Rests process.old }
    requires unit { HasUnit process.old hart
        (Event.Fetch pc word ∷ Event.Enter ∷ Event.Trap cause value ∷ []) }
    ensures { HasMadeUnit hart process.old process.new }
{
    process.fetch(hart, pc, word);
    process.enter(Actor::Hart(hart));
    process.trap(hart, cause, value);
}

/// A hart finds a word at its pc that is no instruction, or whose instruction wants this trap, and
/// is stopped.
pub fn trap(process: &mut Process, hart: u8, pc: u64, word: u32, cause: u8, value: u64)
    requires room { 3 ≤ process.old.room }
    requires rests { Rests process.old }
    requires found { FindsAt process.old hart pc (Some word) }
    requires told { OfHart process.old.moment.flat hart
        (λ state. IsTrapOf state.arch word (inst_of word) cause value) }
    ensures { HasMadeUnit hart process.old process.new }
{
    illegal_words_are_units();
    traps_are_units();
    process.keeps_sound();
    stop(process, hart, pc, word, cause, value);
}

/// A hart finds a word at its pc whose instruction wants an access that cannot be made, at this
/// address, and is stopped.
pub fn fault(process: &mut Process, hart: u8, pc: u64, word: u32, cause: u8, va: u64)
    requires room { 3 ≤ process.old.room }
    requires rests { Rests process.old }
    requires found { FindsAt process.old hart pc (Some word) }
    requires faulty { OfHart process.old.moment.flat hart
        (IsFault process.old.moment.flat word cause va) }
    ensures { HasMadeUnit hart process.old process.new }
{
    faults_are_units();
    process.keeps_sound();
    stop(process, hart, pc, word, cause, va);
}
