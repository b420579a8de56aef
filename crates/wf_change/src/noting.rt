//! Harts that note pages, before anything has changed.
ghost use Rattle.std.specs.Prelude.{◌≡◌, ◌∷◌, ◌==◌, [], ℕ, IfOk, if◌then◌else◌, length};
ghost use Rattle.wf_flat.specs.Changes as changes;
ghost use Rattle.wf_flat.specs.Lists.{others_changed};
ghost use Rattle.wf_effects.specs.Effects.{all_noted, place_among};

use std::alloc::Global;
use wf_effects::pages_noted;
use wf_flat::{Actor, Flat, FlatHart};
use wf_outside::Memory;

// The same hart.
fn copy_of(hart: &FlatHart) -> Result<FlatHart, Memory>
    ensures { IfOk result (λ copy. copy ≡ hart.now) }
{
    Ok(FlatHart {
        generation: hart.generation,
        arch: hart.arch,
        fetched: hart.fetched,
        looked: hart.looked,
        put: hart.put,
        moved: hart.moved.clone()?,
        reservation: hart.reservation,
        life: hart.life,
    })
}

// The same harts.
fn copies_of(alloc: Global, harts: &[FlatHart]) -> Result<Vec<FlatHart>, Memory>
    ensures { IfOk result (λ copies. copies.items ≡ harts.now) }
{
    let mut copies = Vec::new(alloc);
    for hart in harts {
        copies.push(copy_of(hart)?)?;
    }
    Ok(copies)
}

// A machine of harts alone, which are those of another.
fn aside_of(alloc: Global, flat: &Flat) -> Result<Flat, Memory>
    ensures { IfOk result (λ aside. aside.harts ≡ flat.now.harts) }
{
    Ok(Flat {
        pages: Vec::new(alloc),
        gens: Vec::new(alloc),
        harts: copies_of(alloc, &flat.harts)?,
        met: Vec::new(alloc),
        inside: None,
        births: 0,
        worn: 0,
        limits: flat.limits,
    })
}

/// The harts after pages that an actor moved are noted by every hart that is in a try, but for the
/// actor.
pub fn harts_noting(
    alloc: Global,
    flat: &Flat,
    actor: Actor,
    pages: &[u32],
) -> Result<Vec<FlatHart>, Memory>
    ensures { IfOk result
        (λ harts. harts.items
        ≡ others_changed flat.now.harts (place_among (length flat.now.harts) actor)
        (all_noted pages.now)) }
{
    let mut aside = aside_of(alloc, flat)?;
    pages_noted(alloc, &mut aside, actor, pages)?;
    Ok(aside.harts)
}

// Of a hart before and after a page was noted, it after that where it is in the generation, and
// else before.
fn one_of(hart: &FlatHart, noting: &FlatHart, generation: u32) -> Result<FlatHart, Memory>
    ensures { IfOk result (λ chosen. chosen
        ≡ (if hart.now.generation == generation then noting.now else hart.now)) }
{
    if hart.generation == generation {
        copy_of(noting)
    } else {
        copy_of(hart)
    }
}

// Of harts before and after a page was noted, those in a generation after it, and the others
// before.
fn noting_in(
    alloc: Global,
    harts: &[FlatHart],
    noting: &[FlatHart],
    generation: u32,
) -> Result<Vec<FlatHart>, Memory>
    requires { length noting.now ≡ length harts.now }
    ensures { IfOk result
        (λ chosen. (h page : ℕ) → noting.now ≡ others_changed harts.now h (all_noted (page ∷ []))
        → chosen.items ≡ others_changed harts.now h (changes.noted_in generation page)) }
{
    let mut chosen = Vec::new(alloc);
    for i in 0..harts.len() {
        chosen.push(one_of(&harts[i], &noting[i], generation)?)?;
    }
    Ok(chosen)
}

/// The harts after a page that a hart's generation meets is noted by the other harts that are in
/// the generation and in a try.
pub fn harts_meeting(
    alloc: Global,
    flat: &Flat,
    h: u8,
    generation: u32,
    page: u32,
) -> Result<Vec<FlatHart>, Memory>
    ensures { IfOk result
        (λ harts. harts.items
        ≡ others_changed flat.now.harts h (changes.noted_in generation page)) }
{
    let noting = harts_noting(alloc, flat, Actor::Hart(h), &[page])?;
    noting_in(alloc, &flat.harts, &noting, generation)
}
