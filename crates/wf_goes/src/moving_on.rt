//! Which call is in hand after an entry.
ghost use Rattle.std.specs.Prelude.{◌≡◌, None, Some, IfOk, if◌then◌else◌};
ghost use Rattle.std.specs.List.{AllByRecursion};
ghost use Rattle.std.specs.Option.{option_map};
ghost use Rattle.wf_legal.specs.Calls as calls;
ghost use Rattle.wf_legal.specs.Legal as legal;
ghost use Rattle.wf_verdict.specs.Verdict.{IsPatch, IsWithinLimits};
ghost use Rattle.wf_goes.specs.InHand.{is_idle_kernel, moment_of, said};

use crate::leaving::owed_by;
use crate::requesting::todo_with_request;
use crate::todo::todo_by;
use crate::{OpenCall, Owed, Work};
use std::alloc::Global;
use wf_flat::{Actor, Entry, Event, Flat};
use wf_may::is_inside;
use wf_outside::{Delta, Memory};
use wf_verdict::Todo;

// Whether the event closes a call of a hart.
fn closes_hart_call(event: Event) -> bool
    ensures { result ≡ calls.closes_hart_call event }
{
    match event {
        Event::End { .. } | Event::Exit { .. } => true,
        Event::Trap { .. } | Event::Sync { .. } => true,
        Event::Again { .. } => true,
        Event::Fetch { .. } | Event::Look { .. } => false,
        Event::Take { .. } | Event::Put { .. } => false,
        Event::Swap { .. } | Event::Miss { .. } => false,
        Event::Wait { .. } | Event::Enter => false,
        Event::Out { .. } | Event::Idle => false,
        Event::Map { .. } | Event::Going { .. } => false,
        Event::Ending { .. } | Event::Gone { .. } => false,
        Event::Born { .. } | Event::Move { .. } => false,
        Event::Dead { .. } | Event::Refused { .. } => false,
    }
}

// Whether the event closes a call of the kernel's own actor.
fn closes_kernel_call(event: Event) -> bool
    ensures { result ≡ calls.closes_kernel_call event }
{
    match event {
        Event::Born { .. } | Event::Dead { .. } => true,
        Event::Refused { .. } => true,
        Event::Fetch { .. } | Event::Look { .. } => false,
        Event::Take { .. } | Event::Put { .. } => false,
        Event::Swap { .. } | Event::Miss { .. } => false,
        Event::End { .. } | Event::Again { .. } => false,
        Event::Wait { .. } | Event::Enter => false,
        Event::Sync { .. } | Event::Trap { .. } => false,
        Event::Exit { .. } | Event::Out { .. } => false,
        Event::Idle | Event::Map { .. } => false,
        Event::Going { .. } | Event::Ending { .. } => false,
        Event::Gone { .. } | Event::Move { .. } => false,
    }
}

// Whether the event closes its actor's call.
fn closes_call(actor: Actor, event: Event) -> bool
    ensures { result ≡ calls.closes_call actor event }
{
    match actor {
        Actor::Hart(_) => closes_hart_call(event),
        Actor::Kernel => closes_kernel_call(event),
    }
}

// What an actor has to do of what it asks for, which begins with the event.
fn todo_with(
    alloc: Global,
    flat: &Flat,
    deltas: &[Delta],
    actor: Actor,
    event: Event,
) -> Result<Vec<Todo>, Memory>
    requires within { IsWithinLimits flat.now }
    requires patches { AllByRecursion IsPatch deltas.now }
    ensures { IfOk result (λ todo. calls.Begins deltas.now flat.now actor event
        → todo.items ≡ calls.todo_with deltas.now flat.now actor event) }
{
    match actor {
        Actor::Hart(h) => match flat.harts.get(h as usize) {
            Some(hart) => todo_by(alloc, flat, deltas, h, hart),
            None => Ok(Vec::new(alloc)),
        },
        Actor::Kernel => todo_with_request(alloc, flat, deltas, event),
    }
}

// What is in hand behind the entry with which what its actor asks for begins.
fn begun_with(
    alloc: Global,
    flat: &Flat,
    deltas: &[Delta],
    entry: Entry,
) -> Result<OpenCall, Memory>
    requires within { IsWithinLimits flat.now }
    requires patches { AllByRecursion IsPatch deltas.now }
    requires begins { calls.Begins deltas.now flat.now entry.actor entry.event }
    ensures { IfOk result (λ call. said call
        ≡ calls.Doing
        (calls.later (calls.todo_with deltas.now flat.now entry.actor entry.event))) }
{
    let mut work = Work::new(todo_with(alloc, flat, deltas, entry.actor, entry.event)?);
    work.pass();
    Ok(OpenCall::Doing { work })
}

// What is in hand behind an entry with which a call that settles goes on.
#[tactic(auto, using(crate::proofs::SettledLemmas::settled_rules))]
fn settled_with(
    alloc: Global,
    flat: &Flat,
    deltas: &[Delta],
    owed: Owed,
    last: Option<u32>,
    entry: Entry,
) -> Result<OpenCall, Memory>
    requires within { IsWithinLimits flat.now }
    requires patches { AllByRecursion IsPatch deltas.now }
    requires goes { calls.GoesOn deltas.now flat.now entry.actor
        (Some (calls.Settling owed last)) entry.event }
    ensures { IfOk result (λ call. said call
        ≡ calls.settled_with deltas.now flat.now entry.actor owed entry.event) }
{
    if let Event::Gone { page, .. } = entry.event {
        let mut owed = owed;
        owed.pay(page);
        return Ok(OpenCall::Settling {
            owed,
            last: Some(page),
        });
    }
    begun_with(alloc, flat, deltas, entry)
}

// What is in hand behind an entry with which a call goes on that it does not close.
fn call_behind(
    alloc: Global,
    flat: &Flat,
    deltas: &[Delta],
    call: OpenCall,
    entry: Entry,
) -> Result<OpenCall, Memory>
    requires within { IsWithinLimits flat.now }
    requires patches { AllByRecursion IsPatch deltas.now }
    requires goes { calls.GoesOn deltas.now flat.now entry.actor (Some (said call)) entry.event }
    ensures { IfOk result (λ next. Some (said next)
        ≡ calls.call_behind deltas.now flat.now entry.actor (Some (said call)) entry.event) }
{
    match call {
        OpenCall::Settling { owed, last } => {
            settled_with(alloc, flat, deltas, owed, last, entry)
        }
        OpenCall::Doing { work } => {
            let mut work = work;
            work.pass();
            Ok(OpenCall::Doing { work })
        }
    }
}

// What is in hand after an entry of the actor inside.
fn call_inside(
    alloc: Global,
    flat: &Flat,
    deltas: &[Delta],
    call: Option<OpenCall>,
    entry: Entry,
) -> Result<Option<OpenCall>, Memory>
    requires within { IsWithinLimits flat.now }
    requires patches { AllByRecursion IsPatch deltas.now }
    requires goes { calls.GoesOn deltas.now flat.now entry.actor (option_map said call)
        entry.event }
    ensures { IfOk result (λ next. option_map said next
        ≡ (if calls.closes_call entry.actor entry.event then None
        else calls.call_behind deltas.now flat.now entry.actor (option_map said call)
        entry.event)) }
{
    if closes_call(entry.actor, entry.event) {
        return Ok(None);
    }
    match call {
        Some(call) => Ok(Some(call_behind(alloc, flat, deltas, call, entry)?)),
        None => Ok(None),
    }
}

/// Whether the entry is the kernel's own actor's that idles.
pub fn is_idle_kernel(entry: Entry) -> bool
    ensures { result ≡ is_idle_kernel entry.actor entry.event }
{
    match entry.actor {
        Actor::Hart(_) => false,
        Actor::Kernel => entry.event == Event::Idle,
    }
}

/// The call that is in hand after an entry, which is allowed; `flat` is the state before it, and
/// `deltas` are the run's patches. Where what is asked for begins with the entry, it takes the time
/// of the verdict on it; at an Enter, one pass over the pages.
///
/// # Errors
///
/// `Memory` where memory runs out.
pub fn call_after(
    alloc: Global,
    flat: &Flat,
    deltas: &[Delta],
    call: Option<OpenCall>,
    entry: Entry,
) -> Result<Option<OpenCall>, Memory>
    requires within { IsWithinLimits flat.now }
    requires patches { AllByRecursion IsPatch deltas.now }
    requires allowed { legal.Allows (moment_of deltas.now flat.now (option_map said call))
        entry.actor entry.event }
    ensures { IfOk result (λ next. option_map said next
        ≡ legal.call_after (moment_of deltas.now flat.now (option_map said call))
        entry.actor entry.event) }
{
    if is_idle_kernel(entry) {
        return Ok(call);
    }
    if entry.event == Event::Enter {
        return Ok(Some(OpenCall::Settling {
            owed: owed_by(alloc, flat)?,
            last: None,
        }));
    }
    if !is_inside(flat, entry.actor) {
        return Ok(call);
    }
    call_inside(alloc, flat, deltas, call, entry)
}
