//! The plan of an unmap.
ghost use Rattle.std.specs.Prelude.{◌≡◌, ◌≤◌, ◌+◌, length, map};
ghost use Rattle.std.specs.List.{find, flat_map, range_with_len};
ghost use Rattle.wf_outside.specs.declared.sizes.TheConstants.{ADDRESS_PAGES};
ghost use Rattle.wf_space.specs.Jobs.{all_pushed, is_absent_at, is_ending_at};
ghost use Rattle.wf_space.specs.Unmapping.{leaf_cleared, leaves_cleared, unmap_changes};

use crate::leaves::{leaf_place, node_for};
use wf_views::{Change, Piece, Records, Roomy, View};

// Whether no page of data has a number.
fn is_absent(records: &Records, page: u32) -> bool
    ensures { result ≡ is_absent_at records.now page }
{
    records.pages.find(page).is_none()
}

/// The first of so many pages that is no page of data.
pub(crate) fn first_absent(records: &Records, first: u32, pages: u64) -> Option<u32>
    requires { first + pages ≤ ADDRESS_PAGES }
    ensures { result ≡ find (is_absent_at records.now) (range_with_len first pages) }
{
    for i in 0..pages {
        let page = first + i as u32;
        if is_absent(records, page) {
            return Some(page);
        }
    }
    None
}

// Whether a page of data is ending.
fn is_ending(records: &Records, page: u32) -> bool
    ensures { result ≡ is_ending_at records.now page }
{
    match records.pages.find(page) {
        Some(page) => page.ending,
        None => false,
    }
}

/// The first of so many pages that is ending.
pub(crate) fn first_leaving(records: &Records, first: u32, pages: u64) -> Option<u32>
    requires { first + pages ≤ ADDRESS_PAGES }
    ensures { result ≡ find (is_ending_at records.now) (range_with_len first pages) }
{
    for i in 0..pages {
        let page = first + i as u32;
        if is_ending(records, page) {
            return Some(page);
        }
    }
    None
}

// The leaf of a page is cleared in a view, if that has met the page.
fn clear_leaf(pieces: &mut Roomy<Piece>, frames: u32, page: u32, view: &View)
    requires { length (leaf_cleared frames page view.now) ≤ pieces.old.room }
    ensures { pieces.new ≡ all_pushed (leaf_cleared frames page view.now) pieces.old }
{
    if !view.met.contains(page) {
        return;
    }
    let Some(node) = node_for(view, page) else {
        return;
    };
    pieces.push(Piece::Pte {
        at: leaf_place(frames, node, page),
        value: 0,
    });
}

// How many frames a machine has.
fn frame_count(records: &Records) -> u32
    ensures { result ≡ records.now.limits.frames }
{
    records.limits.frames
}

// The leaves of a page are cleared in all views that have met it.
fn clear_leaves(pieces: &mut Roomy<Piece>, records: &Records, page: u32)
    requires { length (leaves_cleared records.now.limits.frames records.now.views.views page)
        ≤ pieces.old.room }
    ensures { pieces.new
        ≡ all_pushed (leaves_cleared records.now.limits.frames records.now.views.views page)
        pieces.old }
{
    let frames = frame_count(records);
    for i in 0..records.views.len() {
        clear_leaf(pieces, frames, page, records.views.at(i));
    }
}

/// The leaves of so many pages are cleared, page by page.
pub(crate) fn clear_pages(pieces: &mut Roomy<Piece>, records: &Records, first: u32, pages: u64)
    requires low { first + pages ≤ ADDRESS_PAGES }
    requires room { length (flat_map
        (leaves_cleared records.now.limits.frames records.now.views.views)
        (range_with_len first pages)) ≤ pieces.old.room }
    ensures { pieces.new ≡ all_pushed (flat_map
        (leaves_cleared records.now.limits.frames records.now.views.views)
        (range_with_len first pages)) pieces.old }
{
    for i in 0..pages {
        clear_leaves(pieces, records, first + i as u32);
    }
}

/// So many pages leave.
pub(crate) fn leave_pages(pieces: &mut Roomy<Piece>, first: u32, pages: u64)
    requires low { first + pages ≤ ADDRESS_PAGES }
    requires room { pages ≤ pieces.old.room }
    ensures { pieces.new ≡ all_pushed (map Piece.Leave (range_with_len first pages)) pieces.old }
{
    for i in 0..pages {
        pieces.push(Piece::Leave {
            page: first + i as u32,
        });
    }
}

/// So many pages are going.
pub(crate) fn set_going(changes: &mut Roomy<Change>, first: u32, pages: u64)
    requires low { first + pages ≤ ADDRESS_PAGES }
    requires room { pages ≤ changes.old.room }
    ensures { changes.new ≡ all_pushed (unmap_changes (range_with_len first pages)) changes.old }
{
    for i in 0..pages {
        changes.push(Change::Going {
            page: first + i as u32,
        });
    }
}
