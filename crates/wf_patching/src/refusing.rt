//! What a patch is refused for.
ghost use Rattle.std.specs.Prelude.{◌≡◌, ◌||◌};
ghost use Rattle.std.specs.List.{find};
ghost use Rattle.wf_effects.specs.Texts.{pages_of};
ghost use Rattle.wf_space.specs.Jobs.{is_ending_at, leaving_in};
ghost use Rattle.wf_mapping.specs.Refusals.{is_here_at, is_text_at, overlap_in};
ghost use Rattle.wf_creating.specs.Refusals.{no_view_in};
ghost use Rattle.wf_patching.specs.Layout.{need_with_patch};
ghost use Rattle.wf_patching.specs.Refusals as refusals;

use wf_creating::{has_view, no_more_views, parent_patches};
use wf_mapping::{is_ending, no_frames, overlaps};
use wf_outside::{Delta, Refusal};
use wf_views::Records;

// NoView, where there is no view of a generation.
fn no_view(records: &Records, generation: u32) -> Option<Refusal>
    ensures { result ≡ no_view_in records.now generation }
{
    if has_view(records, generation) {
        None
    } else {
        Some(Refusal::NoView {
            generation: u64::from(generation),
        })
    }
}

// Lacks, where the parent has not all the patches of the script before this one.
fn lacks(records: &Records, parent: u32, patch: u32) -> Option<Refusal>
    ensures { result ≡ refusals.lacks_in records.now parent patch }
{
    let patches = parent_patches(records, parent);
    if patches < patch {
        Some(Refusal::Lacks {
            n: u64::from(patches),
        })
    } else {
        None
    }
}

// The first of these pages that is here, or text of a generation that lives.
fn first_overlap(records: &Records, numbers: &[u32]) -> Option<u32>
    ensures { result
        ≡ find (λ page. is_here_at records.now page || is_text_at records.now page) numbers.now }
{
    for page in numbers {
        if overlaps(records, *page) {
            return Some(*page);
        }
    }
    None
}

// Overlap, with the first of these pages that is here, or text of a generation that lives.
fn overlap(records: &Records, numbers: &[u32]) -> Option<Refusal>
    ensures { result ≡ overlap_in records.now numbers.now }
{
    let page = first_overlap(records, numbers)?;
    Some(Refusal::Overlap { page })
}

// The first of these pages that is ending.
fn first_leaving(records: &Records, numbers: &[u32]) -> Option<u32>
    ensures { result ≡ find (is_ending_at records.now) numbers.now }
{
    for page in numbers {
        if is_ending(records, *page) {
            return Some(*page);
        }
    }
    None
}

// Leaving, with the first of these pages that is ending.
fn leaving(records: &Records, numbers: &[u32]) -> Option<Refusal>
    ensures { result ≡ leaving_in records.now numbers.now }
{
    let page = first_leaving(records, numbers)?;
    Some(Refusal::Leaving { page })
}

/// What a patch of this parent, which brings pages of these numbers, is refused for, but for want
/// of frames. It takes one pass over the text of all views for each page.
pub fn unfit_patch(
    records: &Records,
    parent: u32,
    delta: &Delta,
    patch: u32,
    numbers: &[u32],
) -> Option<Refusal>
    requires { numbers.now ≡ pages_of delta.now }
    ensures { result ≡ refusals.unfit_patch records.now parent delta.now patch }
{
    if let Some(reason) = no_view(records, parent) {
        return Some(reason);
    }
    if let Some(reason) = lacks(records, parent, patch) {
        return Some(reason);
    }
    if let Some(reason) = no_more_views(records) {
        return Some(reason);
    }
    if let Some(reason) = overlap(records, numbers) {
        return Some(reason);
    }
    leaving(records, numbers)
}

/// What a patch of this parent, which brings pages of these numbers and needs so many frames, is
/// refused for.
pub fn patch_refusal(
    records: &Records,
    parent: u32,
    delta: &Delta,
    patch: u32,
    numbers: &[u32],
    need: u64,
) -> Option<Refusal>
    requires numbers { numbers.now ≡ pages_of delta.now }
    requires need { need ≡ need_with_patch records.now parent delta.now }
    ensures { result ≡ refusals.patch_refusal records.now parent delta.now patch }
{
    match unfit_patch(records, parent, delta, patch, numbers) {
        Some(reason) => Some(reason),
        None => no_frames(records, need),
    }
}
