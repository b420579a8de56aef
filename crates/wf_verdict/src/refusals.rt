//! The refusals, each by itself.
ghost use Rattle.std.specs.Prelude.{◌≡◌, ◌<◌, ◌≤◌, ◌+◌, ◌*◌, ◌^◌, ◌&&◌, None, length};
ghost use Rattle.std.specs.List.{list_any};
ghost use Rattle.wf_flat.specs.Ordered.{IsOrdered};
ghost use Rattle.wf_outside.specs.declared.sizes.TheConstants.{PAGE_SIZE};
ghost use Rattle.wf_verdict.specs.Verdict as verdict;

use crate::{MOST_GENERATIONS, MOST_PAGES};
use wf_effects::{first_absent, first_leaving, first_overlap, is_live, lowest_in};
use wf_flat::{Flat, Gen};
use wf_outside::{Jump, PAGE_SIZE, Refusal};

// The first address past those that are used.
const END: u64 = 1 << 38;

/// Argument, where the range of pages breaks a rule.
pub fn bad_range(va: u64, pages: u64) -> Option<Refusal>
    ensures refusal { result ≡ verdict.bad_range va pages }
    ensures within { result ≡ None → va + PAGE_SIZE * pages ≤ 2 ^ 38 }
    ensures few { result ≡ None → pages ≤ 256 }
{
    if va % PAGE_SIZE != 0 || pages < 1 || pages > MOST_PAGES {
        return Some(Refusal::Argument);
    }
    match va.checked_add(PAGE_SIZE * pages) {
        Some(end) => {
            if end <= END {
                None
            } else {
                Some(Refusal::Argument)
            }
        }
        None => Some(Refusal::Argument),
    }
}

/// Argument, where the right is none of those that a page may have.
pub fn bad_right(right: u64) -> Option<Refusal>
    ensures { result ≡ verdict.bad_right right }
{
    if right == 1 || right == 3 {
        None
    } else {
        Some(Refusal::Argument)
    }
}

/// Overlap, with the first of the pages that is Here, or text of a generation that lives.
pub fn overlap(flat: &Flat, pages: &[u32]) -> Option<Refusal>
    requires { IsOrdered flat.now }
    ensures { result ≡ verdict.overlap flat.now pages.now }
{
    let page = first_overlap(flat, pages)?;
    Some(Refusal::Overlap { page })
}

/// Absent, with the first of the pages that is no page of data.
pub fn absent(flat: &Flat, pages: &[u32]) -> Option<Refusal>
    requires { IsOrdered flat.now }
    ensures { result ≡ verdict.absent flat.now pages.now }
{
    let page = first_absent(flat, pages)?;
    Some(Refusal::Absent { page })
}

/// Leaving, with the first of the pages that is Ending.
pub fn leaving(flat: &Flat, pages: &[u32]) -> Option<Refusal>
    requires { IsOrdered flat.now }
    ensures { result ≡ verdict.leaving flat.now pages.now }
{
    let page = first_leaving(flat, pages)?;
    Some(Refusal::Leaving { page })
}

/// NoView, where no generation of the number lives.
pub fn no_view(flat: &Flat, generation: u64) -> Option<Refusal>
    ensures { result ≡ verdict.no_view flat.now generation }
{
    if is_live(flat, generation) {
        None
    } else {
        Some(Refusal::NoView { generation })
    }
}

/// NotEmpty, with the lowest running hart that is in the generation.
pub fn not_empty(flat: &Flat, generation: u32) -> Option<Refusal>
    requires { length flat.now.harts ≤ 256 }
    ensures { result ≡ verdict.not_empty flat.now generation }
{
    let hart = lowest_in(flat, generation)?;
    Some(Refusal::NotEmpty { hart: hart as u8 })
}

// Whether an address is inside a jump.
fn is_in_jump(jump: &Jump, at: u64) -> bool
    ensures { result ≡ verdict.is_in_jump at jump.now }
{
    jump.at < at && at - jump.at < 8
}

// Whether an address is inside one of the jumps.
fn is_in_jumps(jumps: &[Jump], at: u64) -> bool
    ensures { result ≡ list_any (verdict.is_in_jump at) jumps.now }
{
    jumps.iter().any(|jump| is_in_jump(jump, at))
}

/// Inside, where the address is inside a jump of the generation's text.
pub fn inside_jump(flat: &Flat, generation: u64, at: u64) -> Option<Refusal>
    ensures { result ≡ verdict.inside_jump flat.now generation at }
{
    let version = flat.gens.get(generation as usize)?;
    if is_in_jumps(&version.jumps, at) {
        Some(Refusal::Inside { at })
    } else {
        None
    }
}

/// Views, where as many generations were born as may be.
pub fn no_more_views(flat: &Flat) -> Option<Refusal>
    ensures { result ≡ verdict.no_more_views flat.now }
{
    if (flat.gens.len() as u64) < MOST_GENERATIONS {
        None
    } else {
        Some(Refusal::Views)
    }
}

/// Lacks, where the generation has only patches of the run whose numbers are below that of the one
/// before.
pub fn lacks(flat: &Flat, generation: u32, patch: u32) -> Option<Refusal>
    ensures { result ≡ verdict.lacks flat.now generation patch }
{
    let patches = match flat.gens.get(generation as usize) {
        Some(version) => version.patches,
        None => 0,
    };
    if patches < patch {
        Some(Refusal::Lacks { n: patches as u64 })
    } else {
        None
    }
}
