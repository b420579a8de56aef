//! What is done about what a hart asks for.
ghost use Rattle.std.specs.Prelude.{◌≡◌, ◌∷◌, ◌++◌, [], IfOk, OnOk};
ghost use Rattle.rv_inst.specs.Meanings.{next_pc};
ghost use Rattle.wf_legal.specs.Calls as calls;
ghost use Rattle.wf_verdict.specs.Requests as requests;
ghost use Rattle.wf_verdict.specs.Verdict.{IsWithinLimits};
ghost use Rattle.wf_may.specs.Asking.{said};

use crate::barred::event_of_access;
use std::alloc::Global;
use wf_flat::{Event, Flat, FlatHart};
use wf_may::{Asked, ask_of};
use wf_outside::{Delta, Memory};
use wf_verdict::{Request, Todo, done_about, requested_by};

// An End, at which a program goes on, is to do behind what is to do.
fn push_end(todo: &mut Vec<Todo>, next: u64) -> Result<(), Memory>
    ensures { OnOk result
        (todo.new.items ≡ todo.old.items ++ Todo.Exactly (Event.End next) ∷ []) }
{
    todo.push(Todo::Exactly {
        event: Event::End { pc: next },
    })?;
    Ok(())
}

// How a program's call ends is to do behind what is to do.
fn push_ending(todo: &mut Vec<Todo>, next: u64, request: Request) -> Result<(), Memory>
    ensures { OnOk result
        (todo.new.items ≡ todo.old.items ++ calls.ending_of next request) }
{
    match request {
        Request::Exits { .. } => Ok(()),
        Request::PutsByte { .. } | Request::Maps { .. } => push_end(todo, next),
        Request::Unmaps { .. } | Request::TellsGeneration => push_end(todo, next),
        Request::Migrates { .. } | Request::Quiesces => push_end(todo, next),
        Request::Deletes { .. } | Request::Clones { .. } => push_end(todo, next),
        Request::Patches { .. } | Request::NoCall { .. } => push_end(todo, next),
    }
}

// What is done about a program's call, which goes on behind this pc.
fn todo_of_call(
    alloc: Global,
    flat: &Flat,
    deltas: &[Delta],
    hart: &FlatHart,
) -> Result<Vec<Todo>, Memory>
    requires { IsWithinLimits flat.now }
    ensures { IfOk result (λ todo. todo.items
        ≡ calls.todo_of_call deltas.now flat.now (next_pc hart.now.arch.pc)
        (requests.requested_by hart.now)) }
{
    let next = hart.arch.pc.wrapping_add(4);
    let request = requested_by(hart);
    let mut todo = done_about(alloc, flat, deltas, next, request)?;
    push_ending(&mut todo, next, request)?;
    Ok(todo)
}

// This event alone.
fn exactly(alloc: Global, event: Event) -> Result<Vec<Todo>, Memory>
    ensures { IfOk result (λ todo. todo.items ≡ Todo.Exactly event ∷ []) }
{
    let mut todo = Vec::new(alloc);
    todo.push(Todo::Exactly { event })?;
    Ok(todo)
}

// What is done about what a hart asks for.
fn todo_of(
    alloc: Global,
    flat: &Flat,
    deltas: &[Delta],
    hart: &FlatHart,
    asked: Asked,
) -> Result<Vec<Todo>, Memory>
    requires { IsWithinLimits flat.now }
    ensures { IfOk result
        (λ todo. todo.items ≡ calls.todo_of deltas.now flat.now hart.now (said asked)) }
{
    match asked {
        Asked::Called => todo_of_call(alloc, flat, deltas, hart),
        Asked::Stopped { cause, value } => exactly(alloc, Event::Trap { cause, value }),
        Asked::Faulted { access } => exactly(alloc, event_of_access(flat, hart, access)),
    }
}

/// What is done about what hart `h`, which is this, asks for, and nothing where it asks for
/// nothing.
///
/// # Errors
///
/// `Memory` where memory runs out.
pub fn todo_by(
    alloc: Global,
    flat: &Flat,
    deltas: &[Delta],
    h: u8,
    hart: &FlatHart,
) -> Result<Vec<Todo>, Memory>
    requires { IsWithinLimits flat.now }
    ensures { IfOk result
        (λ todo. todo.items ≡ calls.todo_by deltas.now flat.now h hart.now) }
{
    match ask_of(flat, h, hart) {
        Some(asked) => todo_of(alloc, flat, deltas, hart, asked),
        None => Ok(Vec::new(alloc)),
    }
}
