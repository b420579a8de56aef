//! How many frames are free, and how many a call needs.
ghost use Rattle.std.specs.Prelude.{◌≡◌, ◌<◌, ◌≤◌, ◌+◌, ◌-◌, ◌^◌, [], IfOk, None, length, true, sum_by};
ghost use Rattle.wf_outside.specs.declared.sizes.TheConstants.{ADDRESS_PAGES, MOST_FRAMES};
ghost use Rattle.wf_flat.specs.Accesses.{generation_text};
ghost use Rattle.wf_flat.specs.Counts.{frames_of, nodes_of, used_of};
ghost use Rattle.wf_effects.specs.Effects.{generation_born, reaching};
ghost use Rattle.wf_effects.specs.Generations.{is_live, newest};
ghost use Rattle.wf_verdict.specs.Frames.{born_frames, frames_reaching, no_frames_mapping, no_frames_patching, patched_frames, used_reaching};
ghost use Rattle.wf_verdict.specs.Verdict as verdict;
ghost use Rattle.wf_verdict.specs.Verdict.{IsPatch, IsWithinLimits};

use crate::places::{numbers_of_data, patched_places};
use std::alloc::Global;
use wf_effects::{born_places, newest};
use wf_flat::{Flat, Gen, add_places};
use wf_outside::{Delta, Memory, Page, Refusal};

// The nodes of a view that reaches these places.
fn nodes_of(alloc: Global, places: &[u32]) -> Result<u64, Memory>
    requires { nodes_of places.now < 2 ^ 64 }
    ensures { IfOk result (λ nodes. nodes ≡ nodes_of places.now) }
{
    let mut upper = Vec::new(alloc);
    add_places(&mut upper, places)?;
    Ok(1 + upper.len() as u64 + places.len() as u64)
}

// The frames of a generation that reaches the places of these pages too.
fn frames_with(alloc: Global, version: &Gen, numbers: &[u32]) -> Result<u64, Memory>
    requires { frames_of (reaching numbers.now version.now) < 2 ^ 64 }
    ensures { IfOk result (λ frames. frames ≡ frames_of (reaching numbers.now version.now)) }
{
    if !version.live {
        return Ok(0);
    }
    let mut places = version.reach.clone()?;
    add_places(&mut places, numbers)?;
    let nodes = nodes_of(alloc, &places)?;
    Ok(version.text.len() as u64 + nodes)
}

// The frames of all generations, where those that live reach the places of these pages too.
#[tactic(auto, unfolding(crate::specs::Frames::frames_reaching))]
fn frames_in(alloc: Global, gens: &[Gen], numbers: &[u32]) -> Result<u64, Memory>
    requires { frames_reaching numbers.now gens.now < 2 ^ 64 }
    ensures { IfOk result (λ frames. frames ≡ frames_reaching numbers.now gens.now) }
{
    let mut frames = 0;
    for version in gens {
        frames += frames_with(alloc, version, numbers)?;
    }
    Ok(frames)
}

// The frames in use, where the generations that live reach the places of these pages too.
#[tactic(auto, using(crate::proofs::FrameLemmas::used_few, crate::proofs::FrameLemmas::frames_few), unfolding(crate::specs::Frames::used_reaching))]
fn used_with(alloc: Global, flat: &Flat, numbers: &[u32]) -> Result<u64, Memory>
    requires within { IsWithinLimits flat.now }
    requires few { length numbers.now ≤ ADDRESS_PAGES }
    ensures used { IfOk result (λ used. used ≡ used_reaching flat.now numbers.now) }
    ensures few { IfOk result (λ used. used < 2 ^ 40) }
{
    let frames = frames_in(alloc, &flat.gens, numbers)?;
    Ok(flat.pages.len() as u64 + frames)
}

// The frames in use. It takes one pass over the places that generations reach.
#[tactic(auto, using(crate::proofs::FrameLemmas::used_none))]
fn used_of(alloc: Global, flat: &Flat) -> Result<u64, Memory>
    requires { IsWithinLimits flat.now }
    ensures used { IfOk result (λ used. used ≡ used_of flat.now) }
{
    let none = Vec::new(alloc);
    used_with(alloc, flat, &none)
}

// The frames that are free, where so many are in use.
fn free_of(flat: &Flat, used: u64) -> u64
    requires { used ≡ used_of flat.now }
    ensures { result ≡ verdict.free_of flat.now }
{
    let frames = flat.limits.frames as u64;
    frames.saturating_sub(used).saturating_sub(flat.worn)
}

// NoFrames, where more frames are needed than are free.
fn more_than_free(need: u64, free: u64) -> Option<Refusal>
    ensures { result ≡ verdict.more_than_free need free }
{
    if free < need {
        Some(Refusal::NoFrames { need, free })
    } else {
        None
    }
}

/// NoFrames, where a map of these pages needs more frames than are free. It takes one pass over the
/// places that generations reach.
#[tactic(auto, unfolding(crate::specs::Frames::no_frames_mapping))]
pub fn map_without_frames(
    alloc: Global,
    flat: &Flat,
    numbers: &[u32],
) -> Result<Option<Refusal>, Memory>
    requires within { IsWithinLimits flat.now }
    requires few { length numbers.now ≤ ADDRESS_PAGES }
    ensures { IfOk result (λ refusal. refusal ≡ no_frames_mapping flat.now numbers.now) }
{
    let used = used_of(alloc, flat)?;
    let to_come = used_with(alloc, flat, numbers)? + numbers.len() as u64;
    Ok(more_than_free(to_come.saturating_sub(used), free_of(flat, used)))
}

// The frames of a generation that is born with this text.
#[tactic(auto, using(crate::proofs::FrameLemmas::born_few), unfolding(crate::specs::Frames::born_frames))]
fn born_frames(alloc: Global, flat: &Flat, text: &[Page]) -> Result<u64, Memory>
    requires few_texts { length text.now ≤ MOST_FRAMES }
    requires few_pages { length flat.now.pages ≤ MOST_FRAMES }
    ensures { IfOk result (λ frames. frames ≡ born_frames flat.now text.now) }
{
    let places = born_places(alloc, flat, text)?;
    let nodes = nodes_of(alloc, &places)?;
    Ok(text.len() as u64 + nodes)
}

// The text of a generation that lives.
fn text_of(flat: &Flat, generation: u32) -> &[Page]
    requires { is_live flat.now generation ≡ true }
    ensures { result.now ≡ generation_text flat.now generation }
{
    let version = &flat.gens[generation as usize];
    &version.text
}

/// NoFrames, where a clone of the generation needs more frames than are free. It takes one pass
/// over the generation's text, over the pages of data, and over the places that generations reach.
#[tactic(auto, using(crate::proofs::FrameLemmas::clone_frames, crate::proofs::FrameLemmas::text_few, crate::proofs::FrameLemmas::pages_few))]
pub fn clone_without_frames(
    alloc: Global,
    flat: &Flat,
    generation: u32,
) -> Result<Option<Refusal>, Memory>
    requires within { IsWithinLimits flat.now }
    requires live { is_live flat.now generation ≡ true }
    ensures { IfOk result (λ refusal. refusal
        ≡ verdict.no_frames flat.now (generation_born [] flat.now generation None)) }
{
    let used = used_of(alloc, flat)?;
    let need = born_frames(alloc, flat, text_of(flat, generation))?;
    Ok(more_than_free(need, free_of(flat, used)))
}

// The frames of a generation that is born with this text and a patch.
#[tactic(auto, using(crate::proofs::FrameLemmas::patched_few), unfolding(crate::specs::Frames::patched_frames))]
fn patched_frames(alloc: Global, flat: &Flat, text: &[Page], delta: &Delta) -> Result<u64, Memory>
    requires few_texts { length text.now ≤ MOST_FRAMES }
    requires few_pages { length flat.now.pages ≤ MOST_FRAMES }
    requires patch { IsPatch delta.now }
    ensures frames { IfOk result (λ frames. frames ≡ patched_frames flat.now text.now delta.now) }
    ensures few { IfOk result (λ frames. frames < 2 ^ 40) }
{
    let places = patched_places(alloc, flat, text, delta)?;
    let nodes = nodes_of(alloc, &places)?;
    Ok(text.len() as u64 + delta.private.len() as u64 + nodes)
}

/// NoFrames, where a patch of the newest generation needs more frames than are free. It takes one
/// pass over that generation's text, over the pages of data and of the patch, and over the places
/// that generations reach.
#[tactic(auto, using(crate::proofs::FrameLemmas::text_few, crate::proofs::FrameLemmas::pages_few), unfolding(crate::specs::Frames::no_frames_patching))]
pub fn patch_without_frames(
    alloc: Global,
    flat: &Flat,
    delta: &Delta,
) -> Result<Option<Refusal>, Memory>
    requires within { IsWithinLimits flat.now }
    requires live { is_live flat.now (newest flat.now) ≡ true }
    requires patch { IsPatch delta.now }
    ensures { IfOk result (λ refusal. refusal ≡ no_frames_patching flat.now delta.now) }
{
    let used = used_of(alloc, flat)?;
    let numbers = numbers_of_data(alloc, &delta.shared)?;
    let shared = used_with(alloc, flat, &numbers)? + numbers.len() as u64;
    let born = patched_frames(alloc, flat, text_of(flat, newest(flat)), delta)?;
    let need = (shared + born).saturating_sub(used);
    Ok(more_than_free(need, free_of(flat, used)))
}
