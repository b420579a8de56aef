//! Generations that are born.
ghost use Rattle.std.specs.Prelude.{◌≡◌, ◌<◌, ◌+◌, ◌^◌, [], IfOk, IfSome, OnErr, OnOk, length, map, option_copied};
ghost use Rattle.wf_outside.specs.Images.{text_numbers};
ghost use Rattle.wf_outside.specs.Lists.{IsRising};
ghost use Rattle.wf_flat.specs.Accesses.{generation_text, is_here};
ghost use Rattle.wf_flat.specs.Boot.{places_with};
ghost use Rattle.wf_flat.specs.Ordered.{IsOrdered};
ghost use Rattle.wf_effects.specs.Effects as effects;
ghost use Rattle.wf_effects.specs.Generations.{patches_in, jumps_in};
ghost use Rattle.wf_effects.specs.Texts.{IsSpliceable};

use crate::deltas::delta_of;
use crate::texts::{copied, spliced, spliced_jumps};
use std::alloc::Global;
use wf_flat::{Flat, FlatPage, Gen, Stage, add_places, numbers_of_text};
use wf_outside::{Delta, Jump, Memory, Page};

// The text of a generation that is there.
fn text_of(flat: &Flat, generation: u32) -> &[Page]
    requires { generation < length flat.now.gens }
    ensures text { result.now ≡ generation_text flat.now generation }
    ensures rising { IsRising (text_numbers result.now) }
{
    let version = &flat.gens[generation as usize];
    &version.text
}

// The jumps of a generation that is there.
fn jumps_of(flat: &Flat, generation: u32) -> &[Jump]
    requires { generation < length flat.now.gens }
    ensures { result.now ≡ jumps_in flat.now generation }
{
    let version = &flat.gens[generation as usize];
    &version.jumps
}

// The text of a generation that is born.
fn born_text(
    alloc: Global,
    flat: &Flat,
    parent: u32,
    delta: Option<&Delta>,
) -> Result<Vec<Page>, Memory>
    requires there { parent < length flat.now.gens }
    requires fits { IfSome (option_copied delta) (IsSpliceable (generation_text flat.now parent)) }
    ensures text { IfOk result
        (λ text. text.items ≡ effects.born_text flat.now parent (option_copied delta.entry)) }
    ensures rising { IfOk result (λ text. IsRising (text_numbers text.items)) }
{
    let text = text_of(flat, parent);
    match delta {
        Some(delta) => spliced(alloc, text, delta),
        None => copied(alloc, text),
    }
}

// The jumps of a generation that is born.
fn born_jumps(
    alloc: Global,
    flat: &Flat,
    parent: u32,
    delta: Option<&Delta>,
) -> Result<Vec<Jump>, Memory>
    requires there { parent < length flat.now.gens }
    ensures { IfOk result
        (λ jumps. jumps.items ≡ effects.born_jumps flat.now parent (option_copied delta.entry)) }
{
    let jumps = jumps_of(flat, parent);
    match delta {
        Some(delta) => spliced_jumps(alloc, jumps, &delta.jumps),
        None => Ok(jumps.to_vec(alloc)?),
    }
}

// How many of the run's patches a generation has that is born.
fn born_patches(flat: &Flat, parent: u32, patch: Option<u32>) -> u32
    requires there { parent < length flat.now.gens }
    requires few { IfSome patch (λ k. k + 1 < 2 ^ 32) }
    ensures { result ≡ effects.born_patches flat.now parent patch }
{
    match patch {
        Some(k) => k + 1,
        None => {
            let version = &flat.gens[parent as usize];
            version.patches
        }
    }
}

// Whether a page is Here.
fn is_here(page: &FlatPage) -> bool
    ensures { result ≡ is_here page.now.stage }
{
    match page.stage {
        Stage::Here => true,
        Stage::Going => false,
        Stage::Ending => false,
    }
}

/// The numbers of the pages of data that are Here.
pub fn here_numbers(alloc: Global, flat: &Flat) -> Result<Vec<u32>, Memory>
    ensures { IfOk result (λ numbers. numbers.items ≡ effects.here_numbers flat.now) }
{
    let mut numbers = Vec::new(alloc);
    for page in &flat.pages {
        if is_here(page) {
            numbers.push(page.number)?;
        }
    }
    Ok(numbers)
}

/// The places of a text and of the pages of data that are Here, rising.
pub fn born_places(alloc: Global, flat: &Flat, text: &[Page]) -> Result<Vec<u32>, Memory>
    ensures places { IfOk result
        (λ places. places.items
        ≡ places_with (places_with [] (text_numbers text.now)) (effects.here_numbers flat.now)) }
    ensures rising { IfOk result (λ places. IsRising places.items) }
{
    let mut places = Vec::new(alloc);
    add_places(&mut places, &numbers_of_text(alloc, text)?)?;
    add_places(&mut places, &here_numbers(alloc, flat)?)?;
    Ok(places)
}

// A generation that is born.
fn newborn(
    alloc: Global,
    flat: &Flat,
    deltas: &[Delta],
    parent: u32,
    patch: Option<u32>,
) -> Result<Gen, Memory>
    requires there { parent < length flat.now.gens }
    requires few { length flat.now.gens < 2 ^ 32 }
    requires few_patches { IfSome patch (λ k. k + 1 < 2 ^ 32) }
    requires fits { IfSome (effects.delta_of deltas.now patch)
        (IsSpliceable (generation_text flat.now parent)) }
    ensures { IfOk result (λ version. version ≡ effects.newborn deltas.now flat.now parent patch) }
{
    let delta = delta_of(deltas, patch);
    let text = born_text(alloc, flat, parent, delta)?;
    let reach = born_places(alloc, flat, &text)?;
    Ok(Gen {
        number: flat.gens.len() as u32,
        parent: Some(parent),
        text,
        jumps: born_jumps(alloc, flat, parent, delta)?,
        patches: born_patches(flat, parent, patch),
        reach,
        live: true,
    })
}

/// The change of a Born: a generation is born, of this parent, and with this patch of the run where
/// there is one. It copies the parent's text, and takes one pass over the pages of data.
///
/// # Errors
///
/// `Memory` where memory runs out; then nothing has changed.
pub fn generation_born(
    alloc: Global,
    flat: &mut Flat,
    deltas: &[Delta],
    parent: u32,
    patch: Option<u32>,
) -> Result<(), Memory>
    requires there { parent < length flat.old.gens }
    requires few { length flat.old.gens < 2 ^ 32 }
    requires few_patches { IfSome patch (λ k. k + 1 < 2 ^ 32) }
    requires fits { IfSome (effects.delta_of deltas.now patch)
        (IsSpliceable (generation_text flat.old parent)) }
    ensures state { OnOk result
        (flat.new ≡ effects.generation_born deltas.now flat.old parent patch) }
    ensures unchanged { OnErr result (flat.new ≡ flat.old) }
    ensures ordered { IsOrdered flat.old → IsOrdered flat.new }
{
    let version = newborn(alloc, flat, deltas, parent, patch)?;
    flat.gens.push(version)?;
    Ok(())
}
