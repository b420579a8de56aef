//! What an entry of a call changes of pages and generations.
ghost use Rattle.std.specs.Prelude.{◌≡◌, ◌<◌, ◌≤◌, ◌+◌, ◌∷◌, [], OnErr, OnOk, length};
ghost use Rattle.std.specs.List.{range_with_len};
ghost use Rattle.wf_outside.specs.declared.sizes.TheConstants.{ADDRESS_PAGES, MOST_FRAMES};
ghost use Rattle.wf_flat.specs.Ordered.{IsOrdered};
ghost use Rattle.wf_flat.specs.Refusals.{refused_answer};
ghost use Rattle.wf_effects.specs.Effects as effects;
ghost use Rattle.wf_legal.specs.Events as events;
ghost use Rattle.wf_sound.specs.Making.{CanBeMapped, IsThere};

use crate::noting::harts_noting;
use std::alloc::Global;
use wf_effects::{
    PageRun, generation_dead, numbers_from, page_ending, page_gone, pages_going, pages_mapped,
    pages_noted,
};
use wf_flat::{Actor, Flat, answer_of};
use wf_outside::{Delta, Memory, Refusal};

/// The call of an actor has its answer, if the actor is a hart.
#[tactic(auto, using(wf_flat::proofs::HartLemmas::hart_changes))]
pub fn answer(flat: &mut Flat, actor: Actor, answer: u64)
    requires { IsThere flat.old actor }
    ensures { flat.new ≡ events.call_answered flat.old actor answer }
{
    match actor {
        Actor::Hart(h) => {
            let hart = &mut flat.harts[h as usize];
            hart.looked = Some(answer);
        }
        Actor::Kernel => {}
    }
}

// The kernel's own actor, if it is this, leaves the kernel.
fn leave_as_kernel(flat: &mut Flat, actor: Actor)
    ensures { flat.new ≡ events.kernel_left flat.old actor }
{
    if actor == Actor::Kernel && flat.inside == Some(Actor::Kernel) {
        flat.inside = None;
    }
}

/// The call of an actor has its answer; the kernel's own actor leaves the kernel.
pub fn close(flat: &mut Flat, actor: Actor, value: u64)
    requires { IsThere flat.old actor }
    ensures { flat.new ≡ events.kernel_left (events.call_answered flat.old actor value) actor }
{
    answer(flat, actor, value);
    leave_as_kernel(flat, actor);
}

/// The change of a Map by an actor.
///
/// # Errors
///
/// `Memory` where memory runs out; then nothing has changed.
pub fn map(
    alloc: Global,
    flat: &mut Flat,
    deltas: &[Delta],
    actor: Actor,
    run: PageRun,
    patch: Option<u32>,
) -> Result<(), Memory>
    requires ordered { IsOrdered flat.old }
    requires there { IsThere flat.old actor }
    requires free { CanBeMapped deltas.now flat.old run.first run.count patch }
    ensures state { OnOk result (flat.new
        ≡ events.call_answered
        (effects.pages_noted
        (effects.mapped flat.old run.first run.count run.write
        (effects.delta_of deltas.now patch))
        actor (range_with_len run.first run.count))
        actor 0) }
    ensures unchanged { OnErr result (flat.new ≡ flat.old) }
{
    let numbers = numbers_from(alloc, run.first, run.count)?;
    let harts = harts_noting(alloc, flat, actor, &numbers)?;
    pages_mapped(alloc, flat, deltas, run, patch)?;
    flat.harts = harts;
    answer(flat, actor, 0);
    Ok(())
}

/// The change of a Going by an actor.
///
/// # Errors
///
/// `Memory` where memory runs out; then nothing has changed.
pub fn go(alloc: Global, flat: &mut Flat, actor: Actor, page: u32, n: u64) -> Result<(), Memory>
    requires ordered { IsOrdered flat.old }
    requires there { IsThere flat.old actor }
    requires low { page + n ≤ ADDRESS_PAGES }
    ensures state { OnOk result (flat.new
        ≡ events.call_answered
        (effects.pages_noted (effects.pages_going flat.old page n) actor (range_with_len page n))
        actor 0) }
    ensures unchanged { OnErr result (flat.new ≡ flat.old) }
{
    let numbers = numbers_from(alloc, page, n)?;
    pages_noted(alloc, flat, actor, &numbers)?;
    pages_going(flat, page, n);
    answer(flat, actor, 0);
    Ok(())
}

/// The change of an Ending by an actor.
///
/// # Errors
///
/// `Memory` where memory runs out; then nothing has changed.
pub fn end_page(alloc: Global, flat: &mut Flat, actor: Actor, page: u32) -> Result<(), Memory>
    requires { IsOrdered flat.old }
    ensures state { OnOk result (flat.new
        ≡ effects.pages_noted (effects.page_ending flat.old page) actor (page ∷ [])) }
    ensures unchanged { OnErr result (flat.new ≡ flat.old) }
{
    pages_noted(alloc, flat, actor, &[page])?;
    page_ending(flat, page);
    Ok(())
}

/// The change of a Gone by an actor.
///
/// # Errors
///
/// `Memory` where memory runs out; then nothing has changed.
pub fn drop_page(
    alloc: Global,
    flat: &mut Flat,
    actor: Actor,
    page: u32,
    worn: bool,
) -> Result<(), Memory>
    requires ordered { IsOrdered flat.old }
    requires room { flat.old.worn < MOST_FRAMES }
    ensures state { OnOk result (flat.new
        ≡ effects.pages_noted (effects.page_gone flat.old page worn) actor (page ∷ [])) }
    ensures unchanged { OnErr result (flat.new ≡ flat.old) }
{
    pages_noted(alloc, flat, actor, &[page])?;
    page_gone(flat, page, worn);
    Ok(())
}

/// The change of a Dead by an actor.
pub fn delete(flat: &mut Flat, actor: Actor, generation: u32)
    requires ordered { IsOrdered flat.old }
    requires there { IsThere flat.old actor }
    ensures { flat.new
        ≡ events.kernel_left
        (events.call_answered (effects.generation_dead flat.old generation) actor 0) actor }
{
    generation_dead(flat, generation);
    close(flat, actor, 0);
}

/// The change of a Refused of an actor.
pub fn refuse(flat: &mut Flat, actor: Actor, reason: Refusal)
    requires { IsThere flat.old actor }
    ensures { flat.new
        ≡ events.kernel_left (events.call_answered flat.old actor (refused_answer reason)) actor }
{
    close(flat, actor, answer_of(reason));
}
