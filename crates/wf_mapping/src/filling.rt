//! The pieces and changes of pages and nodes that are new.
ghost use Rattle.std.specs.Prelude.{◌≡◌, ◌≤◌, ◌<◌, ◌-◌, length, map};
ghost use Rattle.std.specs.List.{flat_map, fold};
ghost use Rattle.wf_outside.specs.declared.sizes.TheConstants.{PAGE_WORDS};
ghost use Rattle.wf_space.specs.Jobs.{all_pushed};
ghost use Rattle.wf_mapping.specs.Plans as plans;
ghost use Rattle.wf_mapping.specs.Plans.{node_filled, node_marked, node_noted, page_filled, page_live, page_marked};

use crate::nodes::node_frame;
use crate::{Blanks, NewNode};
use wf_frames::word_place;
use wf_outside::PAGE_WORDS;
use wf_sv39::pte_node;
use wf_views::{Change, Listed, PageAt, Piece, Records, Roomy};

/// The frames of pages are filled with zeros.
pub(crate) fn fill_pages(pieces: &mut Roomy<Piece>, blanks: &mut Blanks, pages: &[PageAt])
    requires room { length pages.now ≤ pieces.old.room }
    requires blanks { length pages.now ≤ blanks.old }
    ensures pieces { pieces.new ≡ all_pushed (map page_filled pages.now) pieces.old }
    ensures blanks { blanks.new ≡ blanks.old - length pages.now }
{
    for page in pages {
        let words = blanks.take();
        pieces.push(Piece::Fill {
            frame: page.frame,
            words: Listed::from_vec(words),
        });
    }
}

// Whether a node is one of those that another of the same page table points to.
fn is_below(above: NewNode, below: NewNode) -> bool
    ensures { result ≡ plans.is_below above below }
{
    above.generation == below.generation
        && u16::from(above.node.level) == u16::from(below.node.level) + 1
        && above.node.prefix == below.node.prefix / PAGE_WORDS as u32
}

// The pointer to a node is among the words of another, if that is above it.
fn put_pointer(words: &mut Vec<u64>, above: NewNode, below: NewNode)
    requires { length words.old.items ≡ PAGE_WORDS }
    ensures words { words.new.items ≡ plans.with_pointer above words.old.items below }
    ensures whole { length words.new.items ≡ PAGE_WORDS }
{
    if is_below(above, below) {
        let place = below.node.prefix as usize % PAGE_WORDS;
        words[place] = pte_node(below.node.frame);
    }
}

// The pointers to those of the nodes that are below another are among its words.
fn put_pointers(words: &mut Vec<u64>, nodes: &[NewNode], above: NewNode)
    requires { length words.old.items ≡ PAGE_WORDS }
    ensures { words.new.items ≡ fold (plans.with_pointer above) words.old.items nodes.now }
{
    for below in nodes {
        put_pointer(words, above, *below);
    }
}

/// The words of a new node. It takes one pass over the new nodes.
pub fn words_of_node(blanks: &mut Blanks, nodes: &[NewNode], above: NewNode) -> Vec<u64>
    requires { 0 < blanks.old }
    ensures words { result.items ≡ plans.words_of_node nodes.now above }
    ensures blanks { blanks.new ≡ blanks.old - 1 }
{
    let mut words = blanks.take();
    put_pointers(&mut words, nodes, above);
    words
}

/// The frames of new nodes are filled with their words. It takes one pass over them for each.
pub(crate) fn fill_nodes(pieces: &mut Roomy<Piece>, blanks: &mut Blanks, nodes: &[NewNode])
    requires room { length nodes.now ≤ pieces.old.room }
    requires blanks { length nodes.now ≤ blanks.old }
    ensures pieces { pieces.new ≡ all_pushed (map (node_filled nodes.now) nodes.now) pieces.old }
{
    for node in nodes {
        let words = words_of_node(blanks, nodes, *node);
        pieces.push(Piece::Fill {
            frame: node.node.frame,
            words: Listed::from_vec(words),
        });
    }
}

/// The frames of pages are live.
pub(crate) fn make_pages_live(pieces: &mut Roomy<Piece>, pages: &[PageAt])
    requires { length pages.now ≤ pieces.old.room }
    ensures { pieces.new ≡ all_pushed (map page_live pages.now) pieces.old }
{
    for page in pages {
        pieces.push(Piece::Live { frame: page.frame });
    }
}

// The frame of the node above a new one, if that stood there before.
fn node_above(records: &Records, new: NewNode) -> Option<u32>
    ensures { result ≡ plans.node_above records.now new }
{
    let view = records.views.find(new.generation)?;
    node_frame(
        view,
        u16::from(new.node.level) + 1,
        new.node.prefix / PAGE_WORDS as u32,
    )
}

// The place of the pointer to a node, in the node above it.
fn pointer_place(frames: u32, above: u32, prefix: u32) -> u64
    ensures { result ≡ plans.pointer_place frames above prefix }
{
    let words = PAGE_WORDS as u64;
    1 + u64::from(frames) + words * u64::from(above) + u64::from(prefix) % words
}

// How many frames a machine has.
fn frame_count(records: &Records) -> u32
    ensures { result ≡ records.now.limits.frames }
{
    records.limits.frames
}

// The pointer to a new node is stored in the node above it, if that stood there before.
fn store_pointer(pieces: &mut Roomy<Piece>, records: &Records, new: NewNode)
    requires { length (plans.pointer_stored records.now new) ≤ pieces.old.room }
    ensures { pieces.new ≡ all_pushed (plans.pointer_stored records.now new) pieces.old }
{
    let frames = frame_count(records);
    if let Some(above) = node_above(records, new) {
        pieces.push(Piece::Pte {
            at: pointer_place(frames, above, new.node.prefix),
            value: pte_node(new.node.frame),
        });
    }
}

/// The pointers to new nodes are stored in the nodes above them that stood there before.
pub(crate) fn store_pointers(pieces: &mut Roomy<Piece>, records: &Records, nodes: &[NewNode])
    requires { length (flat_map (plans.pointer_stored records.now) nodes.now) ≤ pieces.old.room }
    ensures { pieces.new
        ≡ all_pushed (flat_map (plans.pointer_stored records.now) nodes.now) pieces.old }
{
    for node in nodes {
        store_pointer(pieces, records, *node);
    }
}

/// The frames of pages are taken, each in its next incarnation.
pub(crate) fn mark_pages(changes: &mut Roomy<Change>, pages: &[PageAt])
    requires { length pages.now ≤ changes.old.room }
    ensures { changes.new ≡ all_pushed (map page_marked pages.now) changes.old }
{
    for page in pages {
        changes.push(Change::Mark {
            frame: page.frame,
            raise: true,
        });
    }
}

/// The frames of new nodes are taken.
pub fn mark_nodes(changes: &mut Roomy<Change>, nodes: &[NewNode])
    requires { length nodes.now ≤ changes.old.room }
    ensures { changes.new ≡ all_pushed (map node_marked nodes.now) changes.old }
{
    for node in nodes {
        changes.push(Change::Mark {
            frame: node.node.frame,
            raise: false,
        });
    }
}

/// Pages are recorded.
pub(crate) fn note_pages(changes: &mut Roomy<Change>, pages: &[PageAt])
    requires { length pages.now ≤ changes.old.room }
    ensures { changes.new ≡ all_pushed (map Change.Page pages.now) changes.old }
{
    for page in pages {
        changes.push(Change::Page { page: *page });
    }
}

// A view has a new node, and reaches its place.
fn note_node(changes: &mut Roomy<Change>, new: NewNode)
    requires { length (node_noted new) ≤ changes.old.room }
    ensures { changes.new ≡ all_pushed (node_noted new) changes.old }
{
    changes.push(Change::Node {
        generation: new.generation,
        node: new.node,
    });
    if new.node.level == 0 {
        changes.push(Change::Reach {
            generation: new.generation,
            place: new.node.prefix,
        });
    }
}

/// New nodes are recorded, and what views reach by them.
pub(crate) fn note_nodes(changes: &mut Roomy<Change>, nodes: &[NewNode])
    requires { length (flat_map node_noted nodes.now) ≤ changes.old.room }
    ensures { changes.new ≡ all_pushed (flat_map node_noted nodes.now) changes.old }
{
    for node in nodes {
        note_node(changes, *node);
    }
}
