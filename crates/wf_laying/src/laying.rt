//! Words that are stored at the start of a run.
ghost use Rattle.std.specs.Prelude.{◌≡◌, ◌<◌, ◌≤◌, ◌+◌, ◌^◌, IfOk, OnOk, length, map};
ghost use Rattle.wf_outside.specs.Lists.{IsRising};
ghost use Rattle.wf_frames.specs.Layout as places;
ghost use Rattle.wf_homes.specs.Kept.{text_page};
ghost use Rattle.wf_space.specs.Pieces.{IsFilled, with_live};
ghost use Rattle.wf_start.specs.Laying.{AreLaid, AreLive, node_words};
ghost use Rattle.wf_laying.specs.Words.{WordsLaidOut};

use crate::entries::entries_of;
use std::alloc::Global;
use wf_flat::FlatPage;
use wf_frames::{Words, frame_word_place};
use wf_outside::{Limits, Memory, Page};
use wf_space::{fill_frame, make_live};
use wf_views::{NodeAt, View};

// The words of pages of text are stored in the frames from `first` on.
fn lay_text(words: &mut Words, first: u32, pages: &[Page])
    requires few { first + length pages.now ≤ words.old.frames }
    requires fits { first + length pages.now < 2 ^ 32 }
    ensures { AreLaid (λ page. page.words) words.old words.new first pages.now
        (length pages.now) }
{
    for (i, page) in pages.iter().enumerate() {
        fill_frame(words, first + i as u32, &page.words);
    }
}

// The words of pages of data are stored in the frames from `first` on.
fn lay_data(words: &mut Words, first: u32, pages: &[FlatPage])
    requires few { first + length pages.now ≤ words.old.frames }
    requires fits { first + length pages.now < 2 ^ 32 }
    ensures { AreLaid (λ page. page.words) words.old words.new first pages.now
        (length pages.now) }
{
    for (i, page) in pages.iter().enumerate() {
        fill_frame(words, first + i as u32, &page.words);
    }
}

// The entries of a node of a view that has met nothing are stored in a frame.
fn lay_node(
    alloc: Global,
    words: &mut Words,
    frame: u32,
    view: &View,
    node: NodeAt,
) -> Result<(), Memory>
    requires low { frame < words.old.frames }
    requires rising { IsRising (map text_page view.now.text) }
    ensures { OnOk result (IsFilled words.old words.new frame (node_words view.now node)) }
{
    let entries = entries_of(alloc, view, node)?;
    fill_frame(words, frame, &entries);
    Ok(())
}

// The entries of the nodes of a view that has met nothing are stored in the frames from `first` on.
fn lay_nodes(alloc: Global, words: &mut Words, first: u32, view: &View) -> Result<(), Memory>
    requires few { first + length view.now.nodes.items ≤ words.old.frames }
    requires fits { first + length view.now.nodes.items < 2 ^ 32 }
    requires rising { IsRising (map text_page view.now.text) }
    ensures { OnOk result (AreLaid (node_words view.now) words.old words.new first
        view.now.nodes.items (length view.now.nodes.items)) }
{
    for (i, node) in view.nodes.as_slice().iter().enumerate() {
        lay_node(alloc, words, first + i as u32, view, *node)?;
    }
    Ok(())
}

// The frame word of a frame is live in its first incarnation.
fn make_first_live(words: &mut Words, frame: u32)
    requires { frame < words.old.frames }
    ensures live { words.new ≡ with_live words.old frame 1 }
    ensures there { places.frame_word_place frame < length words.old.items }
{
    let _before = words.get(frame_word_place(frame));
    make_live(words, frame, 1);
}

// The frame words of so many frames from `first` on are live, in their first incarnation.
fn make_all_live(words: &mut Words, first: u32, count: u32)
    requires few { first + count ≤ words.old.frames }
    requires fits { first + count < 2 ^ 32 }
    ensures { AreLive words.old words.new first count }
{
    for i in 0..count {
        make_first_live(words, first + i);
    }
}

/// The words at the start of a run: pages of text, pages of data and the nodes of the view lie in
/// frames one behind another, from frame 0 on. Where memory runs out nothing is left.
pub fn first_words(
    alloc: Global,
    limits: Limits,
    text: &[Page],
    pages: &[FlatPage],
    view: &View,
) -> Result<Words, Memory>
    requires few { length text.now + length pages.now + length view.now.nodes.items
        ≤ limits.frames }
    requires rising { IsRising (map text_page view.now.text) }
    ensures { IfOk result (λ words.
        WordsLaidOut words limits.frames text.now pages.now view.now) }
{
    let mut words = Words::new(alloc, limits)?;
    let data_first = text.len() as u32;
    let count = pages.len() as u32;
    lay_text(&mut words, 0, text);
    lay_data(&mut words, data_first, pages);
    lay_nodes(alloc, &mut words, data_first + count, view)?;
    make_all_live(&mut words, data_first, count);
    let _count = words.len();
    Ok(words)
}
