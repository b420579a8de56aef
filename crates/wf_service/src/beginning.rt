//! How the call of a hart begins: what it takes of memory.
ghost use Rattle.std.specs.Prelude.{◌≡◌, ◌≤◌, ◌<◌, ◌+◌, ◌∷◌, ◌++◌, [], IfOk, OnErr, length, vec_len, vec_capacity};
ghost use Rattle.wf_flat.specs.declared.event.Actor.TheVariants.{Hart};
ghost use Rattle.wf_flat.specs.declared.event.Event.TheVariants as events;
ghost use Rattle.wf_flat.specs.Changes.{change_hart, entered, fetched_with};
ghost use Rattle.wf_service.specs.Calling.{HasBegun, HasEntered};

use crate::appending::append;
use crate::listing::{first_event, todo_of_hart};
use std::alloc::Global;
use wf_change::change;
use wf_flat::{Actor, Entry, Event, Flat};
use wf_outside::{Delta, Memory};
use wf_sound::{allowed_can_be_made, sound_is_within_limits};
use wf_verdict::Todo;

/// A hart begins a try of this word, and enters the kernel.
pub fn enter(flat: &mut Flat, hart: u8, pc: u64, word: u32)
    requires { hart < length flat.old.harts }
    ensures { flat.new
        ≡ entered (change_hart flat.old hart (fetched_with word)) (Hart hart) }
{
    flat.fetch(hart, pc, word);
    flat.enter(Actor::Hart(hart));
}

/// What the call of a hart has to do, of which the first thing is done. There is room for its
/// entries then.
///
/// # Errors
///
/// `Memory` where memory runs out; then nothing has changed.
pub fn begin(
    alloc: Global,
    flat: &mut Flat,
    deltas: &[Delta],
    journal: &mut Vec<Entry>,
    hart: u8,
    word: u32,
) -> Result<Vec<Todo>, Memory>
    requires { HasEntered deltas.now flat.old hart word }
    ensures begun { IfOk result (λ todo. HasBegun deltas.now flat.old hart todo.items flat.new) }
    ensures room { IfOk result
        (λ todo. vec_len journal.new + length todo.items + 2 ≤ vec_capacity journal.new) }
    ensures err { OnErr result (flat.new ≡ flat.old) }
    ensures journal { journal.new.items ≡ journal.old.items }
{
    allowed_can_be_made();
    sound_is_within_limits();
    let todo = todo_of_hart(alloc, flat, deltas, hart)?;
    journal.reserve(todo.len() + 2)?;
    change(alloc, flat, deltas, Actor::Hart(hart), first_event(&todo))?;
    Ok(todo)
}

/// The first three entries of a hart's call, for which there is room.
pub fn write_first(journal: &mut Vec<Entry>, hart: u8, pc: u64, word: u32, event: Event)
    requires { vec_len journal.old + 3 ≤ vec_capacity journal.old }
    ensures items { journal.new.items
        ≡ journal.old.items
        ++ (record { actor = Hart hart; event = events.Fetch pc word }
        ∷ record { actor = Hart hart; event = events.Enter }
        ∷ record { actor = Hart hart; event = event } ∷ []) }
    ensures len { vec_len journal.new ≡ vec_len journal.old + 3 }
    ensures capacity { vec_capacity journal.new ≡ vec_capacity journal.old }
{
    append(journal, Actor::Hart(hart), Event::Fetch { pc, word });
    append(journal, Actor::Hart(hart), Event::Enter);
    append(journal, Actor::Hart(hart), event);
}
