//! What a mapping is refused for.
ghost use Rattle.std.specs.Prelude.{◌≡◌, ◌≤◌, ◌+◌, ◌==◌, ◌||◌, is_some, length};
ghost use Rattle.std.specs.List.{find, list_any, range_with_len};
ghost use Rattle.wf_outside.specs.declared.sizes.TheConstants.{ADDRESS_PAGES};
ghost use Rattle.wf_homes.specs.Kept.{text_frame};
ghost use Rattle.wf_space.specs.Jobs.{is_ending_at};
ghost use Rattle.wf_verdict.specs.Verdict.{more_than_free};
ghost use Rattle.wf_mapping.specs.Layout.{free_in, need_of};
ghost use Rattle.wf_mapping.specs.Refusals.{is_here_at, is_text_at, refusal_in, stays};
ghost use Rattle.wf_mapping.specs.Room.{CanMap};

use crate::Mapping;
use wf_outside::{PAGE_SIZE, Refusal};
use wf_views::{PageAt, Records, TextAt, View};

/// Whether no unmap of a page has begun.
pub fn stays(page: PageAt) -> bool
    ensures { result ≡ stays page }
{
    !page.going && !page.ending
}

// Whether a page of data is here.
fn is_here(records: &Records, page: u32) -> bool
    ensures { result ≡ is_here_at records.now page }
{
    match records.pages.find(page) {
        Some(page) => stays(page),
        None => false,
    }
}

// Whether a page is one of these.
fn has_page(text: &[TextAt], page: u32) -> bool
    ensures { result ≡ list_any (λ other. other.page == page) text.now }
{
    text.iter().any(|other| other.page == page)
}

// Whether a page is text of a view.
fn is_text_of(view: &View, page: u32) -> bool
    ensures { result ≡ is_some (text_frame view.now page) }
{
    has_page(&view.text, page)
}

// Whether a page is text of a generation that lives.
fn is_text(records: &Records, page: u32) -> bool
    ensures { result ≡ is_text_at records.now page }
{
    for i in 0..records.views.len() {
        if is_text_of(records.views.at(i), page) {
            return true;
        }
    }
    false
}

/// Whether a page is here, or text of a generation that lives. It takes one pass over the text of all
/// views.
pub fn overlaps(records: &Records, page: u32) -> bool
    ensures { result ≡ (is_here_at records.now page || is_text_at records.now page) }
{
    is_here(records, page) || is_text(records, page)
}

// The first of so many pages that is here, or text of a generation that lives.
fn first_overlap(records: &Records, first: u32, pages: u64) -> Option<u32>
    requires { first + pages ≤ ADDRESS_PAGES }
    ensures { result
        ≡ find (λ page. is_here_at records.now page || is_text_at records.now page)
        (range_with_len first pages) }
{
    for i in 0..pages {
        let page = first + i as u32;
        if overlaps(records, page) {
            return Some(page);
        }
    }
    None
}

/// Whether a page of data is ending.
pub fn is_ending(records: &Records, page: u32) -> bool
    ensures { result ≡ is_ending_at records.now page }
{
    match records.pages.find(page) {
        Some(page) => page.ending,
        None => false,
    }
}

// The first of so many pages that is ending.
fn first_leaving(records: &Records, first: u32, pages: u64) -> Option<u32>
    requires { first + pages ≤ ADDRESS_PAGES }
    ensures { result ≡ find (is_ending_at records.now) (range_with_len first pages) }
{
    for i in 0..pages {
        let page = first + i as u32;
        if is_ending(records, page) {
            return Some(page);
        }
    }
    None
}

/// NoFrames, where more frames are needed than are free.
pub fn no_frames(records: &Records, need: u64) -> Option<Refusal>
    ensures { result ≡ more_than_free need (length (free_in records.now)) }
{
    let free = records.frames.free();
    if free < need {
        Some(Refusal::NoFrames { need, free })
    } else {
        None
    }
}

/// What a mapping, which needs so many frames, is refused for. It takes one pass over the text of
/// all views for each page.
pub(crate) fn map_refusal(records: &Records, mapping: Mapping, need: u64) -> Option<Refusal>
    requires can { CanMap mapping }
    requires need { need ≡ need_of records.now mapping }
    ensures { result ≡ refusal_in records.now mapping }
{
    let first = (mapping.va / PAGE_SIZE) as u32;
    if let Some(page) = first_overlap(records, first, mapping.pages) {
        return Some(Refusal::Overlap { page });
    }
    if let Some(page) = first_leaving(records, first, mapping.pages) {
        return Some(Refusal::Leaving { page });
    }
    no_frames(records, need)
}
