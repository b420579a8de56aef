//! What a generation that is born has of its parent, and of the pages of data that are there.
ghost use Rattle.std.specs.Prelude.{◌≡◌, [], IfOk, map};
ghost use Rattle.wf_outside.specs.Lists.{IsRising};
ghost use Rattle.wf_flat.specs.Boot.{places_with};
ghost use Rattle.wf_homes.specs.Kept.{text_page};
ghost use Rattle.wf_creating.specs.Layout.{full};
ghost use Rattle.wf_creating.specs.Parents as parents;
ghost use Rattle.wf_creating.specs.Parents.{reach_at_birth, text_numbers_of};

use std::alloc::Global;
use wf_flat::add_places;
use wf_mapping::stays;
use wf_outside::{Jump, Memory};
use wf_views::{Numbers, Records, TextAt};

/// The pages of text of a generation that lives.
pub fn parent_text(records: &Records, parent: u32) -> &[TextAt]
    ensures { result.now ≡ parents.parent_text records.now parent }
{
    match records.views.find(parent) {
        Some(view) => &view.text,
        None => &[],
    }
}

/// The jumps in the text of a generation that lives.
pub fn parent_jumps(records: &Records, parent: u32) -> &[Jump]
    ensures { result.now ≡ parents.parent_jumps records.now parent }
{
    match records.views.find(parent) {
        Some(view) => &view.jumps,
        None => &[],
    }
}

/// How many patches of the script a generation has that lives.
pub fn parent_patches(records: &Records, parent: u32) -> u32
    ensures { result ≡ parents.parent_patches records.now parent }
{
    match records.views.find(parent) {
        Some(view) => view.patches,
        None => 0,
    }
}

/// The numbers of pages of text.
pub fn text_numbers(alloc: Global, text: &[TextAt]) -> Result<Vec<u32>, Memory>
    ensures { IfOk result (λ numbers. numbers.items ≡ map text_page text.now) }
{
    let mut numbers = Vec::new(alloc);
    for page in text {
        numbers.push(page.page)?;
    }
    Ok(numbers)
}

/// The numbers of the pages of data that are here.
pub fn numbers_here(alloc: Global, records: &Records) -> Result<Vec<u32>, Memory>
    ensures { IfOk result (λ numbers. numbers.items ≡ parents.numbers_here records.now) }
{
    let mut numbers = Vec::new(alloc);
    for page in records.pages.as_slice() {
        if stays(*page) {
            numbers.push(page.page)?;
        }
    }
    Ok(numbers)
}

/// The places of pages of text, and of pages of data that are here.
pub fn places_of(alloc: Global, text: &[u32], here: &[u32]) -> Result<Vec<u32>, Memory>
    ensures places { IfOk result
        (λ places. places.items ≡ places_with (places_with [] text.now) here.now) }
    ensures rising { IfOk result (λ places. IsRising places.items) }
{
    let mut places = Vec::new(alloc);
    add_places(&mut places, text)?;
    add_places(&mut places, here)?;
    Ok(places)
}

/// The same numbers, which rise, without room for more.
pub fn as_numbers(alloc: Global, rising: &[u32]) -> Result<Numbers, Memory>
    requires { IsRising rising.now }
    ensures { IfOk result (λ numbers. numbers ≡ full rising.now) }
{
    let mut numbers = Numbers::new(alloc);
    for number in rising {
        numbers.put(*number)?;
    }
    Ok(numbers)
}

/// The places that a generation reaches that is born of this parent, whose pages of text have these
/// numbers.
pub(crate) fn reach_of_birth(
    alloc: Global,
    records: &Records,
    parent: u32,
    numbers: &[u32],
) -> Result<Numbers, Memory>
    requires { numbers.now ≡ text_numbers_of records.now parent }
    ensures { IfOk result (λ reach. reach ≡ full (reach_at_birth records.now parent)) }
{
    let here = numbers_here(alloc, records)?;
    let places = places_of(alloc, numbers, &here)?;
    as_numbers(alloc, &places)
}
