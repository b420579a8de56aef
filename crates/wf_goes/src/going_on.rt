//! Whether the call in hand goes on with an entry.
ghost use Rattle.std.specs.Prelude.{◌≡◌, ◌<◌, ◌^◌, ◌↔◌, [], IfOk, IsTrue, length};
ghost use Rattle.std.specs.List.{AllByRecursion};
ghost use Rattle.std.specs.Option.{option_map};
ghost use Rattle.wf_flat.specs.declared.event.Actor.TheVariants as actors;
ghost use Rattle.wf_legal.specs.Calls as calls;
ghost use Rattle.wf_verdict.specs.Verdict.{IsPatch, IsWithinLimits};
ghost use Rattle.wf_goes.specs.InHand.{said};

use crate::leaving::{is_next, settles};
use crate::requesting::begins_request;
use crate::todo::todo_by;
use crate::{OpenCall, Owed, Work};
use std::alloc::Global;
use wf_flat::{Actor, Entry, Event, Flat};
use wf_outside::{Delta, Memory};

// Whether what a hart asks for begins with the event.
fn begins_by_hart(
    alloc: Global,
    flat: &Flat,
    deltas: &[Delta],
    h: u8,
    event: Event,
) -> Result<bool, Memory>
    requires { IsWithinLimits flat.now }
    ensures { IfOk result (λ begins. IsTrue begins
        ↔ calls.Begins deltas.now flat.now (actors.Hart h) event) }
{
    let Some(hart) = flat.harts.get(h as usize) else {
        return Ok(false);
    };
    let todo = todo_by(alloc, flat, deltas, h, hart)?;
    Ok(is_next(flat, Work::new(todo).first(), event))
}

// Whether what an actor asks for begins with the event.
fn begins(
    alloc: Global,
    flat: &Flat,
    deltas: &[Delta],
    actor: Actor,
    event: Event,
) -> Result<bool, Memory>
    requires within { IsWithinLimits flat.now }
    requires patches { AllByRecursion IsPatch deltas.now }
    requires few { length deltas.now < 2 ^ 32 }
    ensures { IfOk result (λ begins. IsTrue begins
        ↔ calls.Begins deltas.now flat.now actor event) }
{
    match actor {
        Actor::Hart(h) => begins_by_hart(alloc, flat, deltas, h, event),
        Actor::Kernel => begins_request(alloc, flat, deltas, event),
    }
}

// Whether a call that settles goes on with the entry.
fn goes_on_settling(
    alloc: Global,
    flat: &Flat,
    deltas: &[Delta],
    owed: &Owed,
    last: Option<u32>,
    entry: Entry,
) -> Result<bool, Memory>
    requires within { IsWithinLimits flat.now }
    requires patches { AllByRecursion IsPatch deltas.now }
    requires few { length deltas.now < 2 ^ 32 }
    ensures { IfOk result (λ goes. IsTrue goes
        ↔ calls.GoesOn deltas.now flat.now entry.actor (Some (calls.Settling owed.now last))
        entry.event) }
{
    if settles(flat, owed, last, entry.event) {
        return Ok(true);
    }
    if owed.first().is_some() {
        return Ok(false);
    }
    begins(alloc, flat, deltas, entry.actor, entry.event)
}

/// Whether the call in hand goes on with the entry; `deltas` are the run's patches. Where what is
/// asked for begins with it, it takes the time of the verdict on what is asked for, and else time
/// in the logarithm of the pages.
///
/// # Errors
///
/// `Memory` where memory runs out.
pub fn goes_on(
    alloc: Global,
    flat: &Flat,
    deltas: &[Delta],
    call: &Option<OpenCall>,
    entry: Entry,
) -> Result<bool, Memory>
    requires within { IsWithinLimits flat.now }
    requires patches { AllByRecursion IsPatch deltas.now }
    requires few { length deltas.now < 2 ^ 32 }
    ensures { IfOk result (λ goes. IsTrue goes
        ↔ calls.GoesOn deltas.now flat.now entry.actor (option_map said call.now) entry.event) }
{
    let Some(current) = call else {
        return Ok(false);
    };
    match current {
        OpenCall::Settling { owed, last } => {
            goes_on_settling(alloc, flat, deltas, owed, *last, entry)
        }
        OpenCall::Doing { work } => Ok(is_next(flat, work.first(), entry.event)),
    }
}
