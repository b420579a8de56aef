//! What is done about a request.
ghost use Rattle.std.specs.Prelude.{◌≡◌, ◌≤◌, ◌∷◌, ◌++◌, ◌+◌, ◌*◌, ◌^◌, ◌==◌, [], IfOk, IsSomeAnd, None, OnOk, Some, length, map, slice_get};
ghost use Rattle.wf_outside.specs.Lists.{first_of};
ghost use Rattle.wf_outside.specs.Pages.{page_of};
ghost use Rattle.wf_outside.specs.declared.sizes.TheConstants.{PAGE_SIZE};
ghost use Rattle.wf_effects.specs.Generations.{newest};
ghost use Rattle.wf_verdict.specs.Verdict as verdict;
ghost use Rattle.wf_verdict.specs.Verdict.{IsOfRun, IsPatch, IsWithinLimits};
ghost use Rattle.wf_verdict.specs.Work as work;

use crate::Request;
use crate::verdict::{
    clone_refusal, delete_refusal, map_refusal, migrate_refusal, pages_from, patch_refusal,
    quiesce_refusal, unmap_refusal,
};
use std::alloc::Global;
use wf_effects::{PageRun, newest, runs_of};
use wf_flat::{Event, Flat};
use wf_outside::{Delta, Memory, PAGE_SIZE, Refusal};

/// One thing that a call has still to do.
#[derive(Clone, Copy, Debug, PartialEq, Eq)]
pub enum Todo {
    /// This event, and no other.
    Exactly { event: Event },
    /// This page leaves: it is gone where nobody holds it at that moment, and else Ending.
    Leaves { page: u32 },
}

// This event alone.
fn exactly(alloc: Global, event: Event) -> Result<Vec<Todo>, Memory>
    ensures { IfOk result (λ todo. todo.items ≡ Todo.Exactly event ∷ []) }
{
    let mut todo = Vec::new(alloc);
    todo.push(Todo::Exactly { event })?;
    Ok(todo)
}

// It is refused, or this event alone is done.
fn refused_or(alloc: Global, refusal: Option<Refusal>, event: Event) -> Result<Vec<Todo>, Memory>
    ensures { IfOk result
        (λ todo. todo.items ≡ work.refused_or refusal (Todo.Exactly event ∷ [])) }
{
    match refusal {
        Some(reason) => exactly(alloc, Event::Refused { reason }),
        None => exactly(alloc, event),
    }
}

// What is done about a call that maps pages.
fn map_done(
    alloc: Global,
    flat: &Flat,
    va: u64,
    pages: u64,
    right: u64,
) -> Result<Vec<Todo>, Memory>
    requires { IsWithinLimits flat.now }
    ensures { IfOk result (λ todo. todo.items
        ≡ work.refused_or (first_of (verdict.map_refusals flat.now va pages right))
        (Todo.Exactly (Event.Map (page_of va) pages (right == 3) None) ∷ [])) }
{
    match map_refusal(alloc, flat, va, pages, right)? {
        Some(reason) => exactly(alloc, Event::Refused { reason }),
        None => exactly(
            alloc,
            Event::Map {
                page: (va / PAGE_SIZE) as u32,
                n: pages,
                write: right == 3,
                patch: None,
            },
        ),
    }
}

// These pages leave, behind what is to do.
fn push_leaving(todo: &mut Vec<Todo>, pages: &[u32]) -> Result<(), Memory>
    ensures { OnOk result (todo.new.items ≡ todo.old.items ++ map Todo.Leaves pages.now) }
{
    for page in pages {
        todo.push(Todo::Leaves { page: *page })?;
    }
    Ok(())
}

// An unmap of the pages begins, and each of them leaves.
fn unmap_work(alloc: Global, va: u64, pages: u64) -> Result<Vec<Todo>, Memory>
    requires { va + PAGE_SIZE * pages ≤ 2 ^ 38 }
    ensures { IfOk result (λ todo. todo.items ≡ work.unmap_work va pages) }
{
    let page = (va / PAGE_SIZE) as u32;
    let mut todo = exactly(alloc, Event::Going { page, n: pages })?;
    push_leaving(&mut todo, &pages_from(alloc, va, pages)?)?;
    Ok(todo)
}

// What is done about a call that unmaps pages.
fn unmap_done(alloc: Global, flat: &Flat, va: u64, pages: u64) -> Result<Vec<Todo>, Memory>
    requires { IsWithinLimits flat.now }
    ensures { IfOk result (λ todo. todo.items
        ≡ work.refused_or (first_of (verdict.unmap_refusals flat.now va pages))
        (work.unmap_work va pages)) }
{
    match unmap_refusal(alloc, flat, va, pages)? {
        Some(reason) => exactly(alloc, Event::Refused { reason }),
        None => unmap_work(alloc, va, pages),
    }
}

// What is done about a call that moves a hart, which goes on at this address.
fn migrate_done(alloc: Global, flat: &Flat, generation: u64, next: u64) -> Result<Vec<Todo>, Memory>
    requires { IsWithinLimits flat.now }
    ensures { IfOk result (λ todo. todo.items
        ≡ work.refused_or (first_of (verdict.migrate_refusals flat.now generation next))
        (Todo.Exactly (Event.Move generation) ∷ [])) }
{
    match migrate_refusal(flat, generation, next) {
        Some(reason) => exactly(alloc, Event::Refused { reason }),
        None => exactly(
            alloc,
            Event::Move {
                generation: generation as u32,
            },
        ),
    }
}

// What is done about a call that moves a hart, which goes on at this address, to the newest
// generation.
fn quiesce_done(alloc: Global, flat: &Flat, next: u64) -> Result<Vec<Todo>, Memory>
    requires { IsWithinLimits flat.now }
    ensures { IfOk result (λ todo. todo.items
        ≡ work.refused_or (first_of (verdict.quiesce_refusals flat.now next))
        (Todo.Exactly (Event.Move (newest flat.now)) ∷ [])) }
{
    let refusal = quiesce_refusal(flat, next);
    let generation = newest(flat);
    refused_or(alloc, refusal, Event::Move { generation })
}

// What is done about a call that deletes a generation.
fn delete_done(alloc: Global, flat: &Flat, generation: u64) -> Result<Vec<Todo>, Memory>
    requires { IsWithinLimits flat.now }
    ensures { IfOk result (λ todo. todo.items
        ≡ work.refused_or (first_of (verdict.delete_refusals flat.now generation))
        (Todo.Exactly (Event.Dead generation) ∷ [])) }
{
    match delete_refusal(flat, generation) {
        Some(reason) => exactly(alloc, Event::Refused { reason }),
        None => exactly(
            alloc,
            Event::Dead {
                generation: generation as u32,
            },
        ),
    }
}

// What is done about a call that clones a generation.
fn clone_done(alloc: Global, flat: &Flat, generation: u64) -> Result<Vec<Todo>, Memory>
    requires { IsWithinLimits flat.now }
    ensures { IfOk result (λ todo. todo.items
        ≡ work.refused_or (first_of (verdict.clone_refusals flat.now generation))
        (Todo.Exactly (Event.Born (length flat.now.gens) generation None) ∷ [])) }
{
    match clone_refusal(alloc, flat, generation)? {
        Some(reason) => exactly(alloc, Event::Refused { reason }),
        None => exactly(
            alloc,
            Event::Born {
                generation: flat.gens.len() as u32,
                parent: generation as u32,
                patch: None,
            },
        ),
    }
}

// A run of a patch's pages is to be mapped.
fn map_of(run: &PageRun, patch: u32) -> Todo
    ensures { result ≡ work.map_of patch run.now }
{
    Todo::Exactly {
        event: Event::Map {
            page: run.first,
            n: run.count,
            write: run.write,
            patch: Some(patch),
        },
    }
}

// The runs of a patch's pages are to be mapped, behind what is to do.
fn push_maps(todo: &mut Vec<Todo>, runs: &[PageRun], patch: u32) -> Result<(), Memory>
    ensures { OnOk result
        (todo.new.items ≡ todo.old.items ++ map (work.map_of patch) runs.now) }
{
    for run in runs {
        todo.push(map_of(run, patch))?;
    }
    Ok(())
}

// The runs of a patch's shared pages are mapped, and a generation is born of the newest.
fn delta_work(alloc: Global, flat: &Flat, patch: u32, delta: &Delta) -> Result<Vec<Todo>, Memory>
    requires { IsWithinLimits flat.now }
    ensures { IfOk result (λ todo. todo.items ≡ work.delta_work flat.now patch delta.now) }
{
    let mut todo = Vec::new(alloc);
    push_maps(&mut todo, &runs_of(alloc, &delta.shared)?, patch)?;
    todo.push(Todo::Exactly {
        event: Event::Born {
            generation: flat.gens.len() as u32,
            parent: newest(flat),
            patch: Some(patch),
        },
    })?;
    Ok(todo)
}

// What is done about a patch of the run.
fn patch_done(alloc: Global, flat: &Flat, deltas: &[Delta], patch: u32) -> Result<Vec<Todo>, Memory>
    requires within { IsWithinLimits flat.now }
    requires patch { IsSomeAnd (slice_get deltas.now patch) IsPatch }
    ensures { IfOk result (λ todo. todo.items
        ≡ work.refused_or (first_of (verdict.patch_refusals deltas.now flat.now patch))
        (work.delta_work flat.now patch (verdict.delta_at deltas.now patch))) }
{
    match patch_refusal(alloc, flat, deltas, patch)? {
        Some(reason) => exactly(alloc, Event::Refused { reason }),
        None => delta_work(alloc, flat, patch, &deltas[patch as usize]),
    }
}

/// What is done about a request, in order: it is refused for the first of its refusals that
/// applies, or else its work is done. `next` is the address at which a program goes on, and
/// `deltas` are the run's patches.
///
/// # Errors
///
/// `Memory` where memory runs out.
pub fn done_about(
    alloc: Global,
    flat: &Flat,
    deltas: &[Delta],
    next: u64,
    request: Request,
) -> Result<Vec<Todo>, Memory>
    requires within { IsWithinLimits flat.now }
    requires patch { IsOfRun deltas.now request }
    ensures { IfOk result
        (λ todo. todo.items ≡ work.done_about deltas.now flat.now next request) }
{
    match request {
        Request::Exits { code } => exactly(alloc, Event::Exit { code }),
        Request::PutsByte { byte } => exactly(alloc, Event::Out { byte }),
        Request::Maps { va, pages, right } => map_done(alloc, flat, va, pages, right),
        Request::Unmaps { va, pages } => unmap_done(alloc, flat, va, pages),
        Request::TellsGeneration => Ok(Vec::new(alloc)),
        Request::Migrates { generation } => migrate_done(alloc, flat, generation, next),
        Request::Quiesces => quiesce_done(alloc, flat, next),
        Request::Deletes { generation } => delete_done(alloc, flat, generation),
        Request::Clones { generation } => clone_done(alloc, flat, generation),
        Request::Patches { patch } => patch_done(alloc, flat, deltas, patch),
        Request::NoCall { number } => {
            let reason = Refusal::Number { n: number };
            exactly(alloc, Event::Refused { reason })
        }
    }
}
