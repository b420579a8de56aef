//! For which requests the kernel's own actor may be refused.
ghost use Rattle.std.specs.Prelude.{◌≡◌, ◌<◌, ◌^◌, ◌↔◌, IfOk, IsTrue, Some, length};
ghost use Rattle.wf_flat.specs.declared.event.Event.TheVariants as events;
ghost use Rattle.std.specs.List.{AllByRecursion};
ghost use Rattle.wf_legal.specs.Calls as calls;
ghost use Rattle.wf_verdict.specs.Requests.{IsKernelRequest};
ghost use Rattle.wf_verdict.specs.Verdict as verdict;
ghost use Rattle.wf_verdict.specs.Verdict.{IsPatch, IsWithinLimits};
ghost use Rattle.wf_goes.specs.Refusing.{RefusesClone, RefusesDelete, RefusesPatch, to_delete};

use std::alloc::Global;
use wf_flat::Flat;
use wf_outside::{Delta, Memory, Refusal};
use wf_verdict::{MOST_GENERATIONS, Request, refusal_of};

// Whether a request that the kernel's own actor may make is refused for the reason.
fn is_refused(
    alloc: Global,
    flat: &Flat,
    deltas: &[Delta],
    request: Request,
    reason: Refusal,
) -> Result<bool, Memory>
    requires within { IsWithinLimits flat.now }
    requires patches { AllByRecursion IsPatch deltas.now }
    requires may { IsKernelRequest deltas.now request }
    ensures { IfOk result (λ refused. IsTrue refused
        ↔ (verdict.refusal_of deltas.now flat.now 0 request ≡ Some reason)) }
{
    Ok(refusal_of(alloc, flat, deltas, 0, request)? == Some(reason))
}

// The generation whose delete may be refused for the reason: the one that is named, or that the
// hart is in.
fn to_delete(flat: &Flat, reason: Refusal) -> Option<u64>
    ensures { result ≡ to_delete flat.now reason }
{
    match reason {
        Refusal::NoView { generation } => Some(generation),
        Refusal::NotEmpty { hart } => {
            let hart = flat.harts.get(hart as usize)?;
            Some(hart.generation as u64)
        }
        Refusal::Argument | Refusal::Views => None,
        Refusal::Overlap { .. } | Refusal::Absent { .. } => None,
        Refusal::Leaving { .. } | Refusal::NoFrames { .. } => None,
        Refusal::Inside { .. } | Refusal::Number { .. } => None,
        Refusal::Lacks { .. } => None,
    }
}

// Whether a delete is refused for the reason.
fn refuses_delete(
    alloc: Global,
    flat: &Flat,
    deltas: &[Delta],
    reason: Refusal,
) -> Result<bool, Memory>
    requires within { IsWithinLimits flat.now }
    requires patches { AllByRecursion IsPatch deltas.now }
    ensures { IfOk result (λ refuses. IsTrue refuses ↔ RefusesDelete deltas.now flat.now reason) }
{
    let Some(generation) = to_delete(flat, reason) else {
        return Ok(false);
    };
    if generation >= MOST_GENERATIONS {
        return Ok(false);
    }
    is_refused(alloc, flat, deltas, Request::Deletes { generation }, reason)
}

// Whether a clone of a generation that was born is refused for the reason.
fn refuses_clone(
    alloc: Global,
    flat: &Flat,
    deltas: &[Delta],
    reason: Refusal,
) -> Result<bool, Memory>
    requires within { IsWithinLimits flat.now }
    requires patches { AllByRecursion IsPatch deltas.now }
    ensures { IfOk result (λ refuses. IsTrue refuses ↔ RefusesClone deltas.now flat.now reason) }
{
    for generation in 0..flat.gens.len() as u64 {
        if is_refused(alloc, flat, deltas, Request::Clones { generation }, reason)? {
            return Ok(true);
        }
    }
    Ok(false)
}

// Whether a patch of the run is refused for the reason.
fn refuses_patch(
    alloc: Global,
    flat: &Flat,
    deltas: &[Delta],
    reason: Refusal,
) -> Result<bool, Memory>
    requires within { IsWithinLimits flat.now }
    requires patches { AllByRecursion IsPatch deltas.now }
    requires few { length deltas.now < 2 ^ 32 }
    ensures { IfOk result (λ refuses. IsTrue refuses ↔ RefusesPatch deltas.now flat.now reason) }
{
    for patch in 0..deltas.len() as u32 {
        if is_refused(alloc, flat, deltas, Request::Patches { patch }, reason)? {
            return Ok(true);
        }
    }
    Ok(false)
}

/// Whether something that the kernel's own actor may request is refused for the reason.
///
/// # Errors
///
/// `Memory` where memory runs out.
pub fn is_refusal(
    alloc: Global,
    flat: &Flat,
    deltas: &[Delta],
    reason: Refusal,
) -> Result<bool, Memory>
    requires within { IsWithinLimits flat.now }
    requires patches { AllByRecursion IsPatch deltas.now }
    requires few { length deltas.now < 2 ^ 32 }
    ensures { IfOk result (λ begins. IsTrue begins
        ↔ calls.BeginsRequest deltas.now flat.now (events.Refused reason)) }
{
    if refuses_delete(alloc, flat, deltas, reason)? {
        return Ok(true);
    }
    if refuses_patch(alloc, flat, deltas, reason)? {
        return Ok(true);
    }
    refuses_clone(alloc, flat, deltas, reason)
}
