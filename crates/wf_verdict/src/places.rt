//! The places of 512 pages in which pages lie.
ghost use Rattle.std.specs.Prelude.{◌≡◌, IfOk};
ghost use Rattle.wf_outside.specs.Images.{data_numbers};
ghost use Rattle.wf_verdict.specs.Frames.{patched_places};

use std::alloc::Global;
use wf_effects::here_numbers;
use wf_flat::{Flat, add_places, numbers_of_text};
use wf_outside::{DataPage, Delta, Memory, Page};

/// The numbers of pages of data.
pub fn numbers_of_data(alloc: Global, pages: &[DataPage]) -> Result<Vec<u32>, Memory>
    ensures { IfOk result (λ numbers. numbers.items ≡ data_numbers pages.now) }
{
    Ok(pages.iter().map(|page| page.number).collect(alloc)?)
}

/// The places of a text, of a patch's pages, and of the pages of data that are Here, rising.
#[tactic(auto, unfolding(crate::specs::Frames::patched_places))]
pub fn patched_places(
    alloc: Global,
    flat: &Flat,
    text: &[Page],
    delta: &Delta,
) -> Result<Vec<u32>, Memory>
    ensures { IfOk result
        (λ places. places.items ≡ patched_places flat.now text.now delta.now) }
{
    let mut places = Vec::new(alloc);
    add_places(&mut places, &numbers_of_text(alloc, text)?)?;
    add_places(&mut places, &numbers_of_text(alloc, &delta.private)?)?;
    add_places(&mut places, &here_numbers(alloc, flat)?)?;
    add_places(&mut places, &numbers_of_data(alloc, &delta.shared)?)?;
    Ok(places)
}
