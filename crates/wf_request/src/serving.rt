//! Whole calls of the kernel's own actor.
ghost use Rattle.std.specs.Prelude.{◌≡◌, ◌<◌, ◌+◌, ◌^◌, ◌++◌, None, OnErr, OnOk, Some, length, vec_len, vec_capacity};
ghost use Rattle.std.specs.List.{AllByRecursion};
ghost use Rattle.wf_outside.specs.declared.sizes.TheConstants.{MOST_FRAMES};
ghost use Rattle.wf_legal.specs.Legal.{at_rest};
ghost use Rattle.wf_sound.specs.Sound.{IsSound};
ghost use Rattle.wf_verdict.specs.Requests.{IsKernelRequest};
ghost use Rattle.wf_verdict.specs.Work as work;
ghost use Rattle.wf_service.specs.Adding.{Adds};
ghost use Rattle.wf_service.specs.Calling.{entered_at};
ghost use Rattle.wf_service.specs.Resting.{IsResting};
ghost use Rattle.wf_request.specs.Requesting.{IsServed, all_done, entries_of};

use crate::patching::{do_or_undo, event_of};
use std::alloc::Global;
use wf_flat::{Actor, Entry, Event, Flat};
use wf_outside::{Delta, Memory};
use wf_service::append;
use wf_sound::{
    allowed_can_be_made, entries_keep_sound, journals_keep_sound, sound_is_within_limits,
};
use wf_verdict::{Request, Todo, done_about};

// The entries of a call of the kernel's own actor, for which there is room.
fn write_all(journal: &mut Vec<Entry>, todo: &[Todo])
    requires { vec_len journal.old + length todo.now < vec_capacity journal.old }
    ensures { journal.new.items ≡ journal.old.items ++ entries_of todo.now }
{
    append(journal, Actor::Kernel, Event::Enter);
    for next in todo {
        append(journal, Actor::Kernel, event_of(*next));
    }
}

// What the kernel's own actor, who is inside, does about a request.
fn serve(
    alloc: Global,
    flat: &mut Flat,
    deltas: &[Delta],
    journal: &mut Vec<Entry>,
    request: Request,
) -> Result<(), Memory>
    requires sound { IsSound (entered_at deltas.now flat.old) }
    requires inside { flat.old.inside ≡ Some Actor.Kernel }
    requires no_try { AllByRecursion (λ hart. hart.fetched ≡ None) flat.old.harts }
    requires births { flat.old.births + MOST_FRAMES < 2 ^ 64 }
    requires request { IsKernelRequest deltas.now request }
    ensures ok { OnOk result
        (flat.new
        ≡ all_done deltas.now flat.old (work.done_about deltas.now flat.old 0 request)) }
    ensures journal { OnOk result
        (journal.new.items
        ≡ journal.old.items ++ entries_of (work.done_about deltas.now flat.old 0 request)) }
    ensures err { OnErr result ((flat.new ≡ flat.old) × (journal.new.items ≡ journal.old.items)) }
{
    allowed_can_be_made();
    entries_keep_sound();
    sound_is_within_limits();
    let todo = done_about(alloc, flat, deltas, 0, request)?;
    journal.reserve(todo.len() + 1)?;
    do_or_undo(alloc, flat, deltas, &todo)?;
    write_all(journal, &todo);
    Ok(())
}

/// A whole call of the kernel's own actor with a request: its Enter, and what is done about it.
/// `deltas` are the run's patches.
///
/// # Errors
///
/// `Memory` where memory runs out; then nothing has changed.
pub fn serve_kernel(
    alloc: Global,
    flat: &mut Flat,
    deltas: &[Delta],
    journal: &mut Vec<Entry>,
    request: Request,
) -> Result<(), Memory>
    requires sound { IsSound (at_rest deltas.now flat.old) }
    requires rests { IsResting flat.old }
    requires births { flat.old.births + MOST_FRAMES < 2 ^ 64 }
    requires request { IsKernelRequest deltas.now request }
    ensures ok { OnOk result
        (Adds (at_rest deltas.now flat.old) journal.old.items (at_rest deltas.now flat.new)
        journal.new.items (IsServed request deltas.now flat.old)) }
    ensures err { OnErr result ((flat.new ≡ flat.old) × (journal.new.items ≡ journal.old.items)) }
    ensures rests { IsResting flat.new }
    ensures harts { length flat.new.harts ≡ length flat.old.harts }
{
    allowed_can_be_made();
    entries_keep_sound();
    journals_keep_sound();
    flat.enter(Actor::Kernel);
    match serve(alloc, flat, deltas, journal, request) {
        Ok(()) => Ok(()),
        Err(memory) => {
            flat.inside = None;
            Err(memory)
        }
    }
}
