//! One unit of a hart: a whole try, or an idle.
ghost use Rattle.std.specs.Prelude.{◌≡◌, ◌≢◌, ◌<◌, ◌+◌, ◌∷◌, ◌^◌, [], ℕ, List, OnOk, OnErr, IfOk, Option, None, length, slice_get, vec_len, vec_capacity};
ghost use Rattle.std.specs.Option.{option_map};
ghost use Rattle.wf_outside.specs.declared.sizes.TheConstants.{MOST_FRAMES};
ghost use Rattle.wf_outside.specs.Images.{DeltaValue};
ghost use Rattle.wf_flat.specs.declared.event.Event.TheVariants as events;
ghost use Rattle.wf_flat.specs.declared.state.Life.TheVariants.{Running};
ghost use Rattle.wf_flat.specs.Steps.{OfHart};
ghost use Rattle.wf_flat.specs.Changes.{fetched_with};
ghost use Rattle.wf_verdict.specs.declared.work.Todo.TheVariants.{Exactly};
ghost use Rattle.wf_flat.specs.Ordered.{IsOrdered};
ghost use Rattle.wf_flat.specs.Follows.{IsUnit};
ghost use Rattle.wf_legal.specs.Legal.{at_rest};
ghost use Rattle.wf_sound.specs.Sound.{IsSound};
ghost use Rattle.wf_service.specs.Resting.{IsResting};
ghost use Rattle.wf_driver.specs.Stepping.{IsTryStart, IsActing, IsAt, IsToCarryOut, IsToDo, IsToMeet, IsDone, IsAction, StaysOpen, EndsUnit, Continues};

use crate::actions::{AccessTry, Action, action_of};
use crate::finding::page_to_sync;
use crate::loading::load;
use crate::storing::{page_to_sync_by, store};
use rv_inst::Arch;
use rv_inst::causes::INSTRUCTION_PAGE_FAULT;
use std::alloc::Global;
use wf_flat::{Actor, Entry, Event, Flat, Life};
use wf_outside::{Delta, Memory};
use wf_service::{append, serve_hart};

// The most entries that a unit makes which is no call.
const MOST: usize = 6;

// A try begins: a hart fetches the word at its pc.
fn fetch(flat: &mut Flat, journal: &mut Vec<Entry>, hart: u8, pc: u64, word: u32)
    requires room { vec_len journal.old < vec_capacity journal.old }
    requires acts { IsActing flat.old hart None }
    requires ready { OfHart flat.old hart (λ state. IsAt flat.old state pc word) }
    ensures made { StaysOpen hart flat.old journal.old.items flat.new journal.new.items }
    ensures acts { IsActing flat.new hart None }
    ensures hart { slice_get flat.new.harts hart
        ≡ option_map (fetched_with word) (slice_get flat.old.harts hart) }
    ensures meets { (action : Action) (met : Option (List (ℕ × ℕ)))
        → IsToMeet flat.old hart action met → IsToMeet flat.new hart action met }
    ensures harts { length flat.new.harts ≡ length flat.old.harts }
    ensures len { vec_len journal.new ≡ vec_len journal.old + 1 }
    ensures capacity { vec_capacity journal.new ≡ vec_capacity journal.old }
{
    flat.fetch(hart, pc, word);
    append(journal, Actor::Hart(hart), Event::Fetch { pc, word });
}

/// A try ends: its instruction is done, and leaves these registers; the page that it holds, if any,
/// is given back.
pub fn end(flat: &mut Flat, journal: &mut Vec<Entry>, hart: u8, held: Option<u32>, next: Arch)
    requires room { vec_len journal.old < vec_capacity journal.old }
    requires acts { IsActing flat.old hart held }
    requires done { IsDone flat.old hart held next }
    ensures { EndsUnit hart flat.old journal.old.items flat.new journal.new.items }
{
    flat.end(hart, held, next);
    append(journal, Actor::Hart(hart), Event::End { pc: next.pc });
}

/// A hart asks for its trap, and stops.
pub fn trap(flat: &mut Flat, journal: &mut Vec<Entry>, hart: u8, cause: u8, value: u64)
    requires room { vec_len journal.old + 1 < vec_capacity journal.old }
    requires acts { IsActing flat.old hart None }
    requires ready { OfHart flat.old hart
        (λ state. IsToDo flat.old hart state (Exactly (events.Trap cause value) ∷ [])) }
    ensures { EndsUnit hart flat.old journal.old.items flat.new journal.new.items }
{
    flat.enter(Actor::Hart(hart));
    flat.trap(hart, cause, value);
    append(journal, Actor::Hart(hart), Event::Enter);
    append(journal, Actor::Hart(hart), Event::Trap { cause, value });
}

// A hart in a try does what it is to do.
fn carry_out(
    flat: &mut Flat,
    journal: &mut Vec<Entry>,
    hart: u8,
    arch: &Arch,
    action: Action,
    met: Option<Vec<(u32, u32)>>,
)
    requires room { vec_len journal.old + 4 < vec_capacity journal.old }
    requires acts { IsActing flat.old hart None }
    requires ready { IsToCarryOut flat.old hart arch.now action }
    requires met { IsToMeet flat.old hart action (option_map (λ v. v.items) met) }
    ensures { EndsUnit hart flat.old journal.old.items flat.new journal.new.items }
{
    let arch = *arch;
    match action {
        Action::Run { next } => end(flat, journal, hart, None, next),
        Action::Load { operand, reserving } => {
            let access = AccessTry {
                hart,
                arch,
                operand,
            };
            load(flat, journal, &access, reserving, met);
        }
        Action::Store { operand, write } => {
            let access = AccessTry {
                hart,
                arch,
                operand,
            };
            store(flat, journal, &access, write, met);
        }
        Action::Trap { cause, value } => trap(flat, journal, hart, cause, value),
    }
}

// What the generations will have met where an action makes a hart's own meet a page; else `None`.
fn to_meet(flat: &Flat, hart: u8, action: &Action) -> Result<Option<Vec<(u32, u32)>>, Memory>
    requires there { hart < length flat.now.harts }
    requires ordered { IsOrdered flat.now }
    ensures { IfOk result
        (λ met. IsToMeet flat.now hart action.now (option_map (λ v. v.items) met)) }
{
    match action {
        Action::Load { operand, .. } => page_to_sync(flat, hart, operand.va),
        Action::Store { operand, write } => page_to_sync_by(flat, hart, *operand, *write),
        _ => Ok(None),
    }
}

// A hart that runs and is in no try does what it is to do with the word at its pc, which is no
// call.
fn try_word(
    flat: &mut Flat,
    journal: &mut Vec<Entry>,
    hart: u8,
    arch: &Arch,
    word: u32,
    action: Action,
) -> Result<(), Memory>
    requires room { vec_len journal.old + 5 < vec_capacity journal.old }
    requires rests { IsResting flat.old }
    requires ready { OfHart flat.old hart
        (λ state. IsAt flat.old state arch.now.pc word × (state.arch ≡ arch.now)) }
    requires action { IsAction arch.now word action }
    ensures ok { (deltas : List DeltaValue) → OnOk result
        (Continues (at_rest deltas flat.old) journal.old.items flat.new journal.new.items
        (IsUnit hart)) }
    ensures err { OnErr result ((flat.new ≡ flat.old) × (journal.new.items ≡ journal.old.items)) }
    ensures rests { IsResting flat.new }
    ensures harts { length flat.new.harts ≡ length flat.old.harts }
{
    let met = to_meet(flat, hart, &action)?;
    fetch(flat, journal, hart, arch.pc, word);
    carry_out(flat, journal, hart, arch, action, met);
    Ok(())
}

// What a hart that is in no try finds at its pc.
#[derive(Clone, Copy, Debug, PartialEq, Eq)]
enum Start {
    // It has stopped.
    Stopped,
    // A word of its text, with its registers.
    Word { arch: Arch, word: u32 },
    // A page that is no text.
    Fault { pc: u64 },
}

fn start_of(flat: &Flat, hart: u8) -> Start
    requires { hart < length flat.now.harts }
    ensures { IsTryStart flat.now hart result }
{
    let state = &flat.harts[hart as usize];
    if state.life != Life::Running {
        return Start::Stopped;
    }
    let arch = state.arch;
    match flat.text_word(state.generation, arch.pc) {
        Some(word) => Start::Word { arch, word },
        None => Start::Fault { pc: arch.pc },
    }
}

// A hart that has stopped idles.
fn idle(flat: &Flat, journal: &mut Vec<Entry>, hart: u8)
    requires room { vec_len journal.old < vec_capacity journal.old }
    requires rests { IsResting flat.now }
    requires ready { OfHart flat.now hart (λ state. state.life ≢ Running) }
    ensures { (deltas : List DeltaValue)
        → Continues (at_rest deltas flat.now) journal.old.items flat.now journal.new.items
        (IsUnit hart) }
{
    append(journal, Actor::Hart(hart), Event::Idle);
}

/// One unit of a hart: a whole instruction or call, a trap, an exit, or an idle where it has
/// stopped. `deltas` are the run's patches. After an error nothing has changed.
pub fn step(
    alloc: Global,
    flat: &mut Flat,
    deltas: &[Delta],
    journal: &mut Vec<Entry>,
    hart: u8,
) -> Result<(), Memory>
    requires sound { IsSound (at_rest deltas.now flat.old) }
    requires rests { IsResting flat.old }
    requires births { flat.old.births + MOST_FRAMES < 2 ^ 64 }
    requires there { hart < length flat.old.harts }
    ensures ok { OnOk result
        (Continues (at_rest deltas.now flat.old) journal.old.items flat.new journal.new.items
        (IsUnit hart)) }
    ensures err { OnErr result ((flat.new ≡ flat.old) × (journal.new.items ≡ journal.old.items)) }
    ensures rests { IsResting flat.new }
    ensures harts { length flat.new.harts ≡ length flat.old.harts }
{
    journal.reserve(MOST)?;
    match start_of(flat, hart) {
        Start::Stopped => {
            idle(flat, journal, hart);
            Ok(())
        }
        Start::Word { arch, word } => match action_of(&arch, word) {
            Some(action) => try_word(flat, journal, hart, &arch, word, action),
            None => serve_hart(alloc, flat, deltas, journal, hart, word),
        },
        Start::Fault { pc } => {
            trap(flat, journal, hart, INSTRUCTION_PAGE_FAULT, pc);
            Ok(())
        }
    }
}
