//! What an entry of a hart changes in its try, or at the end of its call.
ghost use Rattle.std.specs.Prelude.{◌≡◌, ◌<◌, false, OnErr, OnOk, length, slice_get};
ghost use Rattle.wf_flat.specs.declared.event.Actor.TheVariants as actors;
ghost use Rattle.wf_flat.specs.Changes as changes;
ghost use Rattle.wf_flat.specs.Memory as memory;
ghost use Rattle.wf_flat.specs.Ordered.{IsOrdered};
ghost use Rattle.wf_flat.specs.Serving.{IsPlace, held_by};
ghost use Rattle.wf_flat.specs.Steps as steps;
ghost use Rattle.wf_flat.specs.Steps.{OfHart};
ghost use Rattle.wf_sound.specs.Making.{WantsNoTrap};

use crate::noting::harts_meeting;
use rv_inst::{Arch, Want};
use std::alloc::Global;
use wf_effects::pages_noted;
use wf_flat::{Actor, Flat, FlatHart};
use wf_may::{access_in, arch_after, data_of, is_conditional, want_in};
use wf_outside::Memory;

// Whether a hart is in a try of a load-reserved.
fn reserves(hart: &FlatHart) -> bool
    ensures { result ≡ changes.reserves (steps.want_in hart.now) }
{
    match want_in(hart) {
        Some(Want::Reserve { .. }) => true,
        Some(Want::Nothing) | Some(Want::Call) => false,
        Some(Want::Look { .. }) | Some(Want::Put { .. }) => false,
        Some(Want::Swap { .. }) | Some(Want::PutIf { .. }) => false,
        Some(Want::Trap { .. }) => false,
        None => false,
    }
}

// Whether the hart of a number is in a try of a load-reserved.
fn is_reserving(flat: &Flat, h: u8) -> bool
    requires { h < length flat.now.harts }
    ensures { OfHart flat.now h (λ hart. changes.reserves (steps.want_in hart) ≡ result) }
{
    reserves(&flat.harts[h as usize])
}

/// The change of a Look by this hart.
pub fn look(flat: &mut Flat, h: u8, va: u64, width: u8, value: u64)
    requires ordered { IsOrdered flat.old }
    requires there { h < length flat.old.harts }
    ensures { flat.new
        ≡ changes.change_hart flat.old h (changes.looked_with flat.old va width value) }
{
    if is_reserving(flat, h) {
        flat.reserve(h, va, width, value);
    } else {
        flat.look(h, va, width, value);
    }
}

/// The change of a Take by this hart.
///
/// # Errors
///
/// `Memory` where memory runs out; then nothing has changed.
pub fn take(alloc: Global, flat: &mut Flat, h: u8, page: u32) -> Result<(), Memory>
    requires { IsOrdered flat.old }
    ensures state { OnOk result (flat.new ≡ changes.page_taken flat.old h page) }
    ensures unchanged { OnErr result (flat.new ≡ flat.old) }
{
    pages_noted(alloc, flat, Actor::Hart(h), &[page])?;
    flat.take_page(page as u64, h);
    Ok(())
}

// Whether a hart is in a try of a store-conditional.
fn stores_if(hart: &FlatHart) -> bool
    ensures { result ≡ steps.is_conditional (steps.want_in hart.now) }
{
    match want_in(hart) {
        Some(want) => is_conditional(want),
        None => false,
    }
}

// Whether the hart of a number is in a try of a store-conditional.
fn is_storing_if(flat: &Flat, h: u8) -> bool
    requires { h < length flat.now.harts }
    ensures { OfHart flat.now h (λ hart. steps.is_conditional (steps.want_in hart) ≡ result) }
{
    stores_if(&flat.harts[h as usize])
}

/// The change of a Put by this hart.
pub fn put(flat: &mut Flat, h: u8, va: u64, width: u8, value: u64)
    requires ordered { IsOrdered flat.old }
    requires there { h < length flat.old.harts }
    requires place { IsPlace va width }
    ensures { flat.new ≡ changes.bytes_put flat.old h va width value }
{
    if is_storing_if(flat, h) {
        flat.put_if(h, va, width, value);
    } else {
        flat.put(h, va, width, value);
    }
}

// The page of the access of a hart's try, where it holds that.
fn held_page(flat: &Flat, h: u8, hart: &FlatHart) -> Option<u32>
    requires { IsOrdered flat.now }
    ensures { result ≡ held_by flat.now h (steps.access_in hart.now) }
{
    let access = access_in(hart)?;
    let page = data_of(flat, access)?;
    if page.holder == Some(h) {
        Some(page.number)
    } else {
        None
    }
}

// The page that the hart of a number holds for its access.
fn held_in(flat: &Flat, h: u8) -> Option<u32>
    requires ordered { IsOrdered flat.now }
    requires there { h < length flat.now.harts }
    ensures { OfHart flat.now h (λ hart. result ≡ held_by flat.now h (steps.access_in hart)) }
{
    held_page(flat, h, &flat.harts[h as usize])
}

// Whether the hart of a number has made its write.
fn has_put(flat: &Flat, h: u8) -> bool
    requires { h < length flat.now.harts }
    ensures { OfHart flat.now h (λ hart. result ≡ hart.put) }
{
    let hart = &flat.harts[h as usize];
    hart.put
}

// A hart gives back the page that it holds for its access.
fn give_back(alloc: Global, flat: &mut Flat, h: u8) -> Result<(), Memory>
    requires ordered { IsOrdered flat.old }
    requires there { h < length flat.old.harts }
    ensures state { OnOk result (flat.new ≡ changes.give_back flat.old h) }
    ensures unchanged { OnErr result (flat.new ≡ flat.old) }
    ensures hart { slice_get flat.new.harts h ≡ slice_get flat.old.harts h }
{
    let Some(page) = held_in(flat, h) else {
        return Ok(());
    };
    let put = has_put(flat, h);
    pages_noted(alloc, flat, Actor::Hart(h), &[page])?;
    flat.give_page(page as u64, put);
    Ok(())
}

// The pc and registers after the instruction or the call of the hart of a number.
fn next_of(flat: &Flat, h: u8) -> Arch
    requires there { h < length flat.now.harts }
    requires no_trap { OfHart flat.now h WantsNoTrap }
    ensures { OfHart flat.now h (λ hart. result ≡ steps.arch_after hart) }
{
    arch_after(&flat.harts[h as usize])
}

/// The change of an End by this hart.
///
/// # Errors
///
/// `Memory` where memory runs out; then nothing has changed.
pub fn end(alloc: Global, flat: &mut Flat, h: u8) -> Result<(), Memory>
    requires ordered { IsOrdered flat.old }
    requires there { h < length flat.old.harts }
    requires no_trap { OfHart flat.old h WantsNoTrap }
    ensures state { OnOk result (flat.new ≡ changes.try_ended flat.old h) }
    ensures unchanged { OnErr result (flat.new ≡ flat.old) }
{
    let next = next_of(flat, h);
    give_back(alloc, flat, h)?;
    flat.finish(h, next);
    Ok(())
}

/// The change of a Wait of this hart: its try ends, and is to be made again.
pub fn wait(flat: &mut Flat, h: u8)
    requires { h < length flat.old.harts }
    ensures { flat.new ≡ changes.change_hart flat.old h changes.tried }
{
    let hart = &mut flat.harts[h as usize];
    hart.fetched = None;
}

/// The change of an Again of this hart: it leaves the kernel, if it is inside, and its try ends,
/// and is to be made again.
pub fn again(flat: &mut Flat, h: u8)
    requires { h < length flat.old.harts }
    ensures { flat.new ≡ changes.leave_hart flat.old h changes.tried }
{
    flat.leave(h);
    wait(flat, h);
}

/// The change of a Sync by this hart. It copies what was met.
///
/// # Errors
///
/// `Memory` where memory runs out; then nothing has changed.
pub fn sync(alloc: Global, flat: &mut Flat, h: u8, generation: u32, page: u32) -> Result<(), Memory>
    requires ordered { IsOrdered flat.old }
    requires unmet { memory.has_met flat.old.met generation page ≡ false }
    ensures state { OnOk result (flat.new ≡ changes.page_met flat.old h generation page) }
    ensures unchanged { OnErr result (flat.new ≡ flat.old) }
{
    let met = flat.met_with(generation, page)?;
    let harts = harts_meeting(alloc, flat, h, generation, page)?;
    flat.set_met(met);
    flat.leave(h);
    flat.harts = harts;
    Ok(())
}
