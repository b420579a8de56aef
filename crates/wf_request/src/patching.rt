//! What the kernel's own actor does about a request, and how it is taken back.
ghost use Rattle.std.specs.Prelude.{◌≡◌, IfOk, OnErr, OnOk, length, map, nat_lt};
ghost use Rattle.std.specs.List.{filter};
ghost use Rattle.wf_request.specs.Requesting as calls;
ghost use Rattle.wf_request.specs.Requesting.{CanBeUndone, HasMapped, all_done, reaching_only, unmapped_since};

use std::alloc::Global;
use std::marker::Model;
use std::mem;
use wf_change::change;
use wf_flat::{Actor, Event, Flat, FlatPage, Gen};
use wf_outside::{Delta, Memory};
use wf_verdict::Todo;

// The places that a generation reaches, rising.
#[derive(Drop)]
struct Reach {
    places: Vec<u32>,
}

impl Model for Reach {
    ghost use Rattle.std.specs.Prelude.{ℕ, List};
    ghost use Rattle.wf_outside.specs.Lists.{IsRising};

    ghost Value = { List ℕ };

    ghost view = { λ r. r.places.items };

    ghost invariant = { λ r. IsRising r.places.items };
}

// The places that a generation reaches.
fn reach_of(version: &Gen) -> Result<Reach, Memory>
    ensures { IfOk result (λ reach. reach ≡ version.now.reach) }
{
    Ok(Reach {
        places: version.reach.clone()?,
    })
}

// The places that each generation reaches.
fn reaches_of(alloc: Global, gens: &[Gen]) -> Result<Vec<Reach>, Memory>
    ensures { IfOk result (λ reaches. reaches.items ≡ map (λ gen. gen.reach) gens.now) }
{
    let mut reaches = Vec::new(alloc);
    for version in gens {
        reaches.push(reach_of(version)?)?;
    }
    Ok(reaches)
}

// The generation reaches these places and no others.
fn set_reach(version: &mut Gen, reach: &mut Reach)
    ensures { version.new ≡ record version.old { reach = reach.old } }
{
    mem::swap(&mut version.reach, &mut reach.places);
}

// The generations reach these places and no others, one by one.
fn set_reaches(gens: &mut [Gen], reaches: &mut [Reach])
    requires { length reaches.old ≡ length gens.old }
    ensures { gens.new ≡ reaching_only reaches.old gens.old }
{
    for i in 0..gens.len() {
        let version = &mut gens[i];
        set_reach(version, &mut reaches[i]);
    }
}

// The pages that were mapped before there were so many births.
fn keep_older(pages: &mut Vec<FlatPage>, births: u64)
    ensures { pages.new.items ≡ filter (λ page. nat_lt page.birth births) pages.old.items }
{
    pages.retain(|page| page.birth < births);
}

// The pages that were mapped since there were so many births are there no more, and the generations
// reach these places and no others.
fn unmap_since(flat: &mut Flat, births: u64, reaches: &mut [Reach])
    requires { length reaches.old ≡ length flat.old.gens }
    ensures { flat.new ≡ unmapped_since flat.old births reaches.old }
{
    keep_older(&mut flat.pages, births);
    set_reaches(&mut flat.gens, reaches);
    flat.births = births;
}

/// The event of a thing to do; a page that leaves is gone.
pub fn event_of(todo: Todo) -> Event
    ensures { result ≡ calls.event_of todo }
{
    match todo {
        Todo::Exactly { event } => event,
        Todo::Leaves { page } => Event::Gone { page, worn: false },
    }
}

// What the kernel's own actor has to do is done, event by event.
fn do_all(alloc: Global, flat: &mut Flat, deltas: &[Delta], todo: &[Todo]) -> Result<(), Memory>
    requires { CanBeUndone deltas.now flat.old todo.now }
    ensures ok { OnOk result (flat.new ≡ all_done deltas.now flat.old todo.now) }
    ensures err { OnErr result (HasMapped flat.old flat.new) }
{
    for next in todo {
        change(alloc, flat, deltas, Actor::Kernel, event_of(*next))?;
    }
    Ok(())
}

/// What the kernel's own actor has to do is done, all of it.
///
/// # Errors
///
/// `Memory` where memory runs out; then nothing has changed.
pub fn do_or_undo(
    alloc: Global,
    flat: &mut Flat,
    deltas: &[Delta],
    todo: &[Todo],
) -> Result<(), Memory>
    requires { CanBeUndone deltas.now flat.old todo.now }
    ensures ok { OnOk result (flat.new ≡ all_done deltas.now flat.old todo.now) }
    ensures err { OnErr result (flat.new ≡ flat.old) }
{
    let births = flat.births;
    let mut reaches = reaches_of(alloc, &flat.gens)?;
    match do_all(alloc, flat, deltas, todo) {
        Ok(()) => Ok(()),
        Err(memory) => {
            unmap_since(flat, births, &mut reaches);
            Err(memory)
        }
    }
}
