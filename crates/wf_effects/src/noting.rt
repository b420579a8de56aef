//! Pages that moved, which the harts that are in a try note.
ghost use Rattle.std.specs.Prelude.{◌≡◌, ◌<◌, ◌≤◌, ℕ, IfOk, List, OnErr, OnOk, length, map, slice_index_or};
ghost use Rattle.std.specs.List.{AllWithin, fold};
ghost use Rattle.wf_flat.specs.Lists.{others_changed, with_number};
ghost use Rattle.wf_flat.specs.Ordered.{IsOrdered};
ghost use Rattle.wf_effects.specs.Effects.{all_noted, new_moved};
ghost use Rattle.wf_effects.specs.Effects as effects;

use std::alloc::Global;
use std::marker::Model;
use std::mem;
use wf_flat::{Actor, Flat, FlatHart};
use wf_outside::Memory;

// The pages that have moved for a hart.
#[derive(Drop)]
struct Moved {
    pages: Vec<u32>,
}

impl Model for Moved {
    ghost use Rattle.std.specs.Prelude.{ℕ, List};

    ghost Value = { List ℕ };

    ghost view = { λ m. m.pages.items };
}

// The place of the first number that is not below this.
fn place_of(numbers: &[u32], n: u32) -> usize
    ensures bound { result ≤ length numbers.now }
    ensures below { AllWithin (λ m. m < n) numbers.now 0 result }
    ensures at { (d : ℕ) → result < length numbers.now → n ≤ slice_index_or numbers.now result d }
{
    match numbers.iter().position(|m| *m >= n) {
        Some(at) => at,
        None => numbers.len(),
    }
}

// One more number, where it isn't there yet.
fn add_number(numbers: &mut Vec<u32>, n: u32) -> Result<(), Memory>
    ensures { OnOk result (numbers.new.items ≡ with_number n numbers.old.items) }
{
    let at = place_of(numbers, n);
    if at < numbers.len() && numbers[at] == n {
        return Ok(());
    }
    numbers.insert(at, n)?;
    Ok(())
}

// More numbers, one after another.
fn add_all(numbers: &mut Vec<u32>, more: &[u32]) -> Result<(), Memory>
    ensures { OnOk result
        (numbers.new.items ≡ fold (λ all n. with_number n all) numbers.old.items more.now) }
{
    for n in more {
        add_number(numbers, *n)?;
    }
    Ok(())
}

// The pages that have moved for a hart, if it is in a try with these.
fn moved_with(hart: &FlatHart, pages: &[u32]) -> Result<Moved, Memory>
    ensures { IfOk result (λ moved. moved ≡ new_moved pages.now hart.now) }
{
    let mut moved = hart.moved.clone()?;
    if hart.fetched.is_some() {
        add_all(&mut moved, pages)?;
    }
    Ok(Moved { pages: moved })
}

// The same of all harts.
fn all_moved(alloc: Global, harts: &[FlatHart], pages: &[u32]) -> Result<Vec<Moved>, Memory>
    ensures { IfOk result (λ all. all.items ≡ map (new_moved pages.now) harts.now) }
{
    let mut all = Vec::new(alloc);
    for hart in harts {
        all.push(moved_with(hart, pages)?)?;
    }
    Ok(all)
}

// These pages have moved for a hart.
fn set_moved(hart: &mut FlatHart, moved: &mut Moved)
    ensures { hart.new ≡ record hart.old { moved = moved.old } }
{
    mem::swap(&mut hart.moved, &mut moved.pages);
}

// These pages have moved for the harts, one by one, but for the one at a place.
fn set_others(harts: &mut [FlatHart], but: usize, all: &mut [Moved])
    requires { length all.old ≡ length harts.old }
    ensures { (pages : List ℕ) → all.old ≡ map (new_moved pages) harts.old
        → harts.new ≡ others_changed harts.old but (all_noted pages) }
{
    for i in 0..harts.len() {
        if i != but {
            let hart = &mut harts[i];
            set_moved(hart, &mut all[i]);
        }
    }
}

// The place of the actor among so many harts, and their end for the kernel's own.
fn place_among(harts: usize, actor: Actor) -> usize
    ensures { result ≡ effects.place_among harts actor }
{
    match actor {
        Actor::Hart(hart) => hart as usize,
        Actor::Kernel => harts,
    }
}

/// Pages that an actor moved are noted by every hart that is in a try, but for the actor. For each
/// hart it takes time in what has moved for it, times these pages.
///
/// # Errors
///
/// `Memory` where memory runs out; then nothing has changed.
pub fn pages_noted(
    alloc: Global,
    flat: &mut Flat,
    actor: Actor,
    pages: &[u32],
) -> Result<(), Memory>
    ensures state { OnOk result (flat.new ≡ effects.pages_noted flat.old actor pages.now) }
    ensures unchanged { OnErr result (flat.new ≡ flat.old) }
    ensures ordered { IsOrdered flat.old → IsOrdered flat.new }
{
    let mut all = all_moved(alloc, &flat.harts, pages)?;
    let but = place_among(flat.harts.len(), actor);
    set_others(&mut flat.harts, but, &mut all);
    Ok(())
}
