//! What a request is refused for.
ghost use Rattle.std.specs.Prelude.{◌≡◌, ◌≤◌, ◌+◌, ◌*◌, ◌^◌, ◌∷◌, [], IfOk, IsSomeAnd, None, length, true, slice_get};
ghost use Rattle.std.specs.List.{range_with_len};
ghost use Rattle.wf_outside.specs.declared.sizes.TheConstants.{PAGE_SIZE};
ghost use Rattle.wf_outside.specs.Lists.{first_of};
ghost use Rattle.wf_effects.specs.Generations.{is_live};
ghost use Rattle.wf_verdict.specs.Frames.{delta_refusals};
ghost use Rattle.wf_verdict.specs.Verdict as verdict;
ghost use Rattle.wf_verdict.specs.Verdict.{IsOfRun, IsPatch, IsWithinLimits};

use crate::Request;
use crate::frames::{clone_without_frames, map_without_frames, patch_without_frames};
use crate::refusals::{
    absent, bad_range, bad_right, inside_jump, lacks, leaving, no_more_views, no_view, not_empty,
    overlap,
};
use std::alloc::Global;
use wf_effects::{newest, numbers_from, pages_of};
use wf_flat::Flat;
use wf_outside::{Delta, Memory, PAGE_SIZE, Refusal};

/// The most pages of a call that maps or unmaps.
pub const MOST_PAGES: u64 = 256;

/// How many generations may be born.
pub const MOST_GENERATIONS: u64 = 1024;

/// So many pages from that of an address on.
#[tactic(auto, using(crate::proofs::FrameLemmas::range_length))]
pub fn pages_from(alloc: Global, va: u64, pages: u64) -> Result<Vec<u32>, Memory>
    requires { va + PAGE_SIZE * pages ≤ 2 ^ 38 }
    ensures numbers { IfOk result (λ numbers. numbers.items ≡ verdict.pages_from va pages) }
    ensures few { IfOk result (λ numbers. length numbers.items ≡ pages) }
{
    numbers_from(alloc, (va / PAGE_SIZE) as u32, pages)
}

/// What a call is refused for that unmaps pages.
pub fn unmap_refusal(
    alloc: Global,
    flat: &Flat,
    va: u64,
    pages: u64,
) -> Result<Option<Refusal>, Memory>
    requires { IsWithinLimits flat.now }
    ensures refusal { IfOk result
        (λ refusal. refusal ≡ first_of (verdict.unmap_refusals flat.now va pages)) }
    ensures within { IfOk result
        (λ refusal. refusal ≡ None → va + PAGE_SIZE * pages ≤ 2 ^ 38) }
{
    let argument = bad_range(va, pages);
    if argument.is_some() {
        return Ok(argument);
    }
    let numbers = pages_from(alloc, va, pages)?;
    Ok(absent(flat, &numbers).or_else(|| leaving(flat, &numbers)))
}

/// What a call is refused for that moves a hart, which goes on at this address.
pub fn migrate_refusal(flat: &Flat, generation: u64, next: u64) -> Option<Refusal>
    ensures refusal { result ≡ first_of (verdict.migrate_refusals flat.now generation next) }
    ensures live { result ≡ None → is_live flat.now generation ≡ true }
{
    no_view(flat, generation).or_else(|| inside_jump(flat, generation, next))
}

/// What a call is refused for that deletes a generation.
pub fn delete_refusal(flat: &Flat, generation: u64) -> Option<Refusal>
    requires { IsWithinLimits flat.now }
    ensures refusal { result ≡ first_of (verdict.delete_refusals flat.now generation) }
    ensures live { result ≡ None → is_live flat.now generation ≡ true }
{
    let no_view = no_view(flat, generation);
    if no_view.is_some() {
        return no_view;
    }
    not_empty(flat, generation as u32)
}

/// What a call is refused for that maps pages.
#[tactic(auto, using(crate::proofs::FrameLemmas::map_frames))]
pub fn map_refusal(
    alloc: Global,
    flat: &Flat,
    va: u64,
    pages: u64,
    right: u64,
) -> Result<Option<Refusal>, Memory>
    requires { IsWithinLimits flat.now }
    ensures refusal { IfOk result
        (λ refusal. refusal ≡ first_of (verdict.map_refusals flat.now va pages right)) }
    ensures within { IfOk result
        (λ refusal. refusal ≡ None → va + PAGE_SIZE * pages ≤ 2 ^ 38) }
{
    let argument = bad_range(va, pages).or_else(|| bad_right(right));
    if argument.is_some() {
        return Ok(argument);
    }
    let numbers = pages_from(alloc, va, pages)?;
    let there = overlap(flat, &numbers).or_else(|| leaving(flat, &numbers));
    if there.is_some() {
        return Ok(there);
    }
    map_without_frames(alloc, flat, &numbers)
}

/// What a call is refused for that clones a generation.
pub fn clone_refusal(alloc: Global, flat: &Flat, generation: u64) -> Result<Option<Refusal>, Memory>
    requires { IsWithinLimits flat.now }
    ensures refusal { IfOk result
        (λ refusal. refusal ≡ first_of (verdict.clone_refusals flat.now generation)) }
    ensures live { IfOk result
        (λ refusal. refusal ≡ None → is_live flat.now generation ≡ true) }
{
    let no_view = no_view(flat, generation);
    if no_view.is_some() {
        return Ok(no_view);
    }
    let views = no_more_views(flat);
    if views.is_some() {
        return Ok(views);
    }
    clone_without_frames(alloc, flat, generation as u32)
}

/// What a call is refused for that moves a hart, which goes on at this address, to the newest
/// generation.
pub fn quiesce_refusal(flat: &Flat, next: u64) -> Option<Refusal>
    requires { IsWithinLimits flat.now }
    ensures { result ≡ first_of (verdict.quiesce_refusals flat.now next) }
{
    inside_jump(flat, newest(flat) as u64, next)
}

// What a birth with a patch is refused for, before its pages are looked at.
fn birth_refusal(flat: &Flat, parent: u32, patch: u32) -> Option<Refusal>
    ensures { result ≡ first_of (verdict.no_view flat.now parent
        ∷ verdict.lacks flat.now parent patch
        ∷ verdict.no_more_views flat.now ∷ []) }
{
    no_view(flat, parent as u64)
        .or_else(|| lacks(flat, parent, patch))
        .or_else(|| no_more_views(flat))
}

// What the patch of a number is refused for, which is this.
#[tactic(auto, unfolding(crate::specs::Frames::delta_refusals))]
fn delta_refusal(
    alloc: Global,
    flat: &Flat,
    patch: u32,
    delta: &Delta,
) -> Result<Option<Refusal>, Memory>
    requires within { IsWithinLimits flat.now }
    requires patch { IsPatch delta.now }
    ensures { IfOk result
        (λ refusal. refusal ≡ first_of (delta_refusals flat.now patch delta.now)) }
{
    let birth = birth_refusal(flat, newest(flat), patch);
    if birth.is_some() {
        return Ok(birth);
    }
    let numbers = pages_of(alloc, delta)?;
    let there = overlap(flat, &numbers).or_else(|| leaving(flat, &numbers));
    if there.is_some() {
        return Ok(there);
    }
    patch_without_frames(alloc, flat, delta)
}

/// What a patch of the run is refused for.
#[tactic(auto, using(crate::proofs::PatchLemmas::patch_list))]
pub fn patch_refusal(
    alloc: Global,
    flat: &Flat,
    deltas: &[Delta],
    patch: u32,
) -> Result<Option<Refusal>, Memory>
    requires within { IsWithinLimits flat.now }
    requires patch { IsSomeAnd (slice_get deltas.now patch) IsPatch }
    ensures { IfOk result
        (λ refusal. refusal ≡ first_of (verdict.patch_refusals deltas.now flat.now patch)) }
{
    delta_refusal(alloc, flat, patch, &deltas[patch as usize])
}

/// What a request is refused for, if it is: the first of its refusals that applies. `next` is the
/// address at which a program goes on, and `deltas` are the run's patches. It takes one pass at
/// most over each list that the request names or would change.
///
/// # Errors
///
/// `Memory` where memory runs out.
pub fn refusal_of(
    alloc: Global,
    flat: &Flat,
    deltas: &[Delta],
    next: u64,
    request: Request,
) -> Result<Option<Refusal>, Memory>
    requires within { IsWithinLimits flat.now }
    requires patch { IsOfRun deltas.now request }
    ensures { IfOk result
        (λ refusal. refusal ≡ verdict.refusal_of deltas.now flat.now next request) }
{
    match request {
        Request::Exits { .. } => Ok(None),
        Request::PutsByte { .. } => Ok(None),
        Request::Maps { va, pages, right } => map_refusal(alloc, flat, va, pages, right),
        Request::Unmaps { va, pages } => unmap_refusal(alloc, flat, va, pages),
        Request::TellsGeneration => Ok(None),
        Request::Migrates { generation } => Ok(migrate_refusal(flat, generation, next)),
        Request::Quiesces => Ok(quiesce_refusal(flat, next)),
        Request::Deletes { generation } => Ok(delete_refusal(flat, generation)),
        Request::Clones { generation } => clone_refusal(alloc, flat, generation),
        Request::Patches { patch } => patch_refusal(alloc, flat, deltas, patch),
        Request::NoCall { number } => Ok(Some(Refusal::Number { n: number })),
    }
}
