//! What a generation that is born with a patch has of its parent, of the patch, and of the pages of
//! data that are here.
ghost use Rattle.std.specs.Prelude.{◌≡◌, ◌++◌, [], IfOk, OnOk};
ghost use Rattle.wf_outside.specs.Images.{data_numbers, text_numbers};
ghost use Rattle.wf_flat.specs.Boot.{places_with};
ghost use Rattle.wf_creating.specs.Layout.{full};
ghost use Rattle.wf_creating.specs.Parents as parents;
ghost use Rattle.wf_patching.specs.Brought as brought;
ghost use Rattle.wf_patching.specs.Brought.{HasDistinctText};

use std::alloc::Global;
use wf_creating::{as_numbers, numbers_here, parent_text, places_of, text_numbers};
use wf_flat::add_places;
use wf_outside::{DataPage, Delta, Memory, Page};
use wf_views::{Numbers, Records};

// The numbers of private pages come behind those that are there.
fn push_private(numbers: &mut Vec<u32>, pages: &[Page]) -> Result<(), Memory>
    ensures { OnOk result (numbers.new.items ≡ numbers.old.items ++ text_numbers pages.now) }
{
    for page in pages {
        numbers.push(page.number)?;
    }
    Ok(())
}

/// The numbers of the pages of text of a generation that is born with a patch, rising.
pub(crate) fn patched_numbers(
    alloc: Global,
    records: &Records,
    parent: u32,
    delta: &Delta,
) -> Result<Vec<u32>, Memory>
    requires { HasDistinctText records.now parent delta.now }
    ensures { IfOk result
        (λ numbers. numbers.items ≡ brought.patched_numbers records.now parent delta.now) }
{
    let mut numbers = text_numbers(alloc, parent_text(records, parent))?;
    push_private(&mut numbers, &delta.private)?;
    numbers.sort_by_key(|n| *n)?;
    Ok(numbers)
}

/// The numbers of shared pages.
pub(crate) fn shared_numbers(alloc: Global, pages: &[DataPage]) -> Result<Vec<u32>, Memory>
    ensures { IfOk result (λ numbers. numbers.items ≡ data_numbers pages.now) }
{
    let mut numbers = Vec::new(alloc);
    for page in pages {
        numbers.push(page.number)?;
    }
    Ok(numbers)
}

/// The places of a text of these numbers, of the pages of data that are here, and of shared pages
/// of these numbers.
pub(crate) fn reach_of_patch(
    alloc: Global,
    records: &Records,
    text: &[u32],
    shared: &[u32],
) -> Result<Numbers, Memory>
    ensures { IfOk result (λ reach. reach ≡ full
        (places_with (places_with (places_with [] text.now) (parents.numbers_here records.now))
        shared.now)) }
{
    let here = numbers_here(alloc, records)?;
    let mut places = places_of(alloc, text, &here)?;
    add_places(&mut places, shared)?;
    as_numbers(alloc, &places)
}
