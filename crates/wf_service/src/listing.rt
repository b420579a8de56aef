//! What a call has to do.
ghost use Rattle.std.specs.Prelude.{◌≡◌, ◌≢◌, ◌<◌, ◌∷◌, ◌++◌, [], ℕ, List, IfOk, OnOk, length};
ghost use Rattle.wf_flat.specs.Steps.{OfHart};
ghost use Rattle.rv_inst.specs.Meanings.{next_pc};
ghost use Rattle.wf_legal.specs.Calls as calls;
ghost use Rattle.wf_verdict.specs.Requests as requests;
ghost use Rattle.wf_verdict.specs.Verdict.{IsWithinLimits};

use std::alloc::Global;
use wf_flat::{Event, Flat, FlatHart};
use wf_outside::{Delta, Memory};
use wf_verdict::{Request, Todo, done_about, requested_by};

// An End, at which a program goes on, is to do behind what is to do.
fn push_end(todo: &mut Vec<Todo>, next: u64) -> Result<(), Memory>
    ensures { OnOk result
        (todo.new.items ≡ todo.old.items ++ Todo.Exactly (Event.End next) ∷ []) }
{
    todo.push(Todo::Exactly {
        event: Event::End { pc: next },
    })?;
    Ok(())
}

// How a program's call ends is to do behind what is to do.
fn push_ending(todo: &mut Vec<Todo>, next: u64, request: Request) -> Result<(), Memory>
    ensures { OnOk result
        (todo.new.items ≡ todo.old.items ++ calls.ending_of next request) }
{
    match request {
        Request::Exits { .. } => Ok(()),
        Request::PutsByte { .. } | Request::Maps { .. } => push_end(todo, next),
        Request::Unmaps { .. } | Request::TellsGeneration => push_end(todo, next),
        Request::Migrates { .. } | Request::Quiesces => push_end(todo, next),
        Request::Deletes { .. } | Request::Clones { .. } => push_end(todo, next),
        Request::Patches { .. } | Request::NoCall { .. } => push_end(todo, next),
    }
}

// What is done about a program's call.
fn todo_of_call(
    alloc: Global,
    flat: &Flat,
    deltas: &[Delta],
    hart: &FlatHart,
) -> Result<Vec<Todo>, Memory>
    requires { IsWithinLimits flat.now }
    ensures { IfOk result (λ todo. todo.items
        ≡ calls.todo_of_call deltas.now flat.now (next_pc hart.now.arch.pc)
        (requests.requested_by hart.now)) }
{
    let next = hart.arch.pc.wrapping_add(4);
    let request = requested_by(hart);
    let mut todo = done_about(alloc, flat, deltas, next, request)?;
    push_ending(&mut todo, next, request)?;
    Ok(todo)
}

/// What the call of a hart has to do.
///
/// # Errors
///
/// `Memory` where memory runs out.
pub fn todo_of_hart(
    alloc: Global,
    flat: &Flat,
    deltas: &[Delta],
    hart: u8,
) -> Result<Vec<Todo>, Memory>
    requires within { IsWithinLimits flat.now }
    requires there { hart < length flat.now.harts }
    ensures { IfOk result (λ todo. OfHart flat.now hart
        (λ state. todo.items
        ≡ calls.todo_of_call deltas.now flat.now (next_pc state.arch.pc)
        (requests.requested_by state))) }
{
    todo_of_call(alloc, flat, deltas, &flat.harts[hart as usize])
}

/// The event that is the first thing to do.
pub fn first_event(todo: &[Todo]) -> Event
    requires some { todo.now ≢ [] }
    requires plain { (page : ℕ) (rest : List Todo) → todo.now ≢ Todo.Leaves page ∷ rest }
    ensures { todo.now ≡ Todo.Exactly result ∷ calls.later todo.now }
{
    match todo[0] {
        Todo::Exactly { event } => event,
        Todo::Leaves { .. } => unreachable!(),
    }
}

/// The first thing to do.
pub fn first_of(todo: &[Todo]) -> Todo
    requires { todo.now ≢ [] }
    ensures { todo.now ≡ result ∷ calls.later todo.now }
{
    todo[0]
}
