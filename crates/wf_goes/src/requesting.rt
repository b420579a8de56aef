//! What the kernel's own actor may request.
ghost use Rattle.std.specs.Prelude.{◌≡◌, ◌<◌, ◌^◌, ◌↔◌, IfOk, IsTrue, length};
ghost use Rattle.std.specs.List.{AllByRecursion};
ghost use Rattle.wf_flat.specs.declared.event.Actor.TheVariants as actors;
ghost use Rattle.wf_legal.specs.Calls as calls;
ghost use Rattle.wf_verdict.specs.Requests.{IsKernelRequest};
ghost use Rattle.wf_verdict.specs.Verdict.{IsPatch, IsWithinLimits};
ghost use Rattle.wf_verdict.specs.Work as work;

use crate::Work;
use crate::leaving::is_next;
use crate::refusing::is_refusal;
use std::alloc::Global;
use wf_flat::{Event, Flat};
use wf_outside::{Delta, Memory};
use wf_verdict::{MOST_GENERATIONS, Request, Todo, done_about};

// The request of the kernel's own actor that begins with an event; no other event tells one.
fn request_with(event: Event) -> Option<Request>
    ensures { result ≡ calls.request_with event }
{
    match event {
        Event::Map {
            patch: Some(patch),
            ..
        } => Some(Request::Patches { patch }),
        Event::Born {
            patch: Some(patch),
            ..
        } => Some(Request::Patches { patch }),
        Event::Born {
            parent,
            patch: None,
            ..
        } => Some(Request::Clones {
            generation: parent as u64,
        }),
        Event::Dead { generation } => Some(Request::Deletes {
            generation: generation as u64,
        }),
        Event::Map { patch: None, .. } => None,
        Event::Fetch { .. } | Event::Look { .. } => None,
        Event::Take { .. } | Event::Put { .. } => None,
        Event::Swap { .. } | Event::Miss { .. } => None,
        Event::End { .. } | Event::Again { .. } => None,
        Event::Wait { .. } | Event::Enter => None,
        Event::Sync { .. } | Event::Trap { .. } => None,
        Event::Exit { .. } | Event::Out { .. } => None,
        Event::Idle | Event::Going { .. } => None,
        Event::Ending { .. } | Event::Gone { .. } => None,
        Event::Move { .. } | Event::Refused { .. } => None,
    }
}

// Whether the kernel's own actor may make this request.
fn is_kernel_request(deltas: &[Delta], request: Request) -> bool
    ensures { IsTrue result ↔ IsKernelRequest deltas.now request }
{
    match request {
        Request::Clones { generation } => generation < MOST_GENERATIONS,
        Request::Deletes { generation } => generation < MOST_GENERATIONS,
        Request::Patches { patch } => (patch as usize) < deltas.len(),
        Request::Exits { .. } | Request::PutsByte { .. } => false,
        Request::Maps { .. } | Request::Unmaps { .. } => false,
        Request::TellsGeneration | Request::Quiesces => false,
        Request::Migrates { .. } | Request::NoCall { .. } => false,
    }
}

// What is done about a request that the kernel's own actor may make.
fn done_by_kernel(
    alloc: Global,
    flat: &Flat,
    deltas: &[Delta],
    request: Request,
) -> Result<Vec<Todo>, Memory>
    requires within { IsWithinLimits flat.now }
    requires patches { AllByRecursion IsPatch deltas.now }
    requires may { IsKernelRequest deltas.now request }
    ensures { IfOk result (λ todo. todo.items
        ≡ work.done_about deltas.now flat.now 0 request) }
{
    done_about(alloc, flat, deltas, 0, request)
}

// Whether the kernel's own actor may make this request, and what is done about it begins with the
// event.
fn begins_with(
    alloc: Global,
    flat: &Flat,
    deltas: &[Delta],
    request: Request,
    event: Event,
) -> Result<bool, Memory>
    requires within { IsWithinLimits flat.now }
    requires patches { AllByRecursion IsPatch deltas.now }
    ensures { IfOk result (λ begins. IsTrue begins
        ↔ (IsKernelRequest deltas.now request
        × calls.IsNext flat.now (work.done_about deltas.now flat.now 0 request) event)) }
{
    if !is_kernel_request(deltas, request) {
        return Ok(false);
    }
    let todo = done_by_kernel(alloc, flat, deltas, request)?;
    Ok(is_next(flat, Work::new(todo).first(), event))
}

/// Whether what the kernel's own actor requests may begin with the event. A refusal may be that of
/// each request: then it takes one pass over the generations and the patches at most.
pub fn begins_request(
    alloc: Global,
    flat: &Flat,
    deltas: &[Delta],
    event: Event,
) -> Result<bool, Memory>
    requires within { IsWithinLimits flat.now }
    requires patches { AllByRecursion IsPatch deltas.now }
    requires few { length deltas.now < 2 ^ 32 }
    ensures { IfOk result (λ begins. IsTrue begins
        ↔ calls.BeginsRequest deltas.now flat.now event) }
{
    if let Event::Refused { reason } = event {
        return is_refusal(alloc, flat, deltas, reason);
    }
    match request_with(event) {
        Some(request) => begins_with(alloc, flat, deltas, request, event),
        None => Ok(false),
    }
}

/// What is done about what the kernel's own actor requests, which begins with the event.
///
/// # Errors
///
/// `Memory` where memory runs out.
pub fn todo_with_request(
    alloc: Global,
    flat: &Flat,
    deltas: &[Delta],
    event: Event,
) -> Result<Vec<Todo>, Memory>
    requires within { IsWithinLimits flat.now }
    requires patches { AllByRecursion IsPatch deltas.now }
    ensures { IfOk result (λ todo. calls.BeginsRequest deltas.now flat.now event
        → todo.items ≡ calls.todo_with deltas.now flat.now actors.Kernel event) }
{
    match request_with(event) {
        Some(request) => {
            if is_kernel_request(deltas, request) {
                done_by_kernel(alloc, flat, deltas, request)
            } else {
                Ok(Vec::new(alloc))
            }
        }
        None => Ok(Vec::new(alloc)),
    }
}
