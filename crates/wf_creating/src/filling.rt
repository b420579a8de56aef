//! The pieces and changes of a generation that is born.
ghost use Rattle.std.specs.Prelude.{◌≡◌, ◌≤◌, ◌<◌, ◌-◌, [], length, map};
ghost use Rattle.std.specs.List.{fold};
ghost use Rattle.wf_outside.specs.declared.sizes.TheConstants.{PAGE_WORDS};
ghost use Rattle.wf_space.specs.Jobs.{all_pushed};
ghost use Rattle.wf_creating.specs.Plans as plans;
ghost use Rattle.wf_creating.specs.Plans.{table_filled, text_marked, texts_copied, with_private_leaf};

use std::alloc::Global;
use wf_mapping::{Blanks, NewNode, words_of_node};
use wf_outside::PAGE_WORDS;
use wf_sv39::{Leaf, pte_leaf};
use wf_views::{Change, Listed, Piece, Roomy, TextAt};

/// Pages of text are copied into the frames of others, one after another, as they are. It takes no
/// memory.
pub(crate) fn copy_texts(
    alloc: Global,
    pieces: &mut Roomy<Piece>,
    texts: &[TextAt],
    copies: &[TextAt],
)
    requires few { length copies.now ≤ length texts.now }
    requires room { length copies.now ≤ pieces.old.room }
    ensures { pieces.new ≡ all_pushed (texts_copied [] texts.now copies.now) pieces.old }
{
    for (i, copy) in copies.iter().enumerate() {
        pieces.push(Piece::Copy {
            from: texts[i].frame,
            frame: copy.frame,
            page: copy.page,
            jumps: Listed::from_vec(Vec::new(alloc)),
        });
    }
}

// Whether the leaf of a page of text is an entry of a node.
fn has_leaf(new: NewNode, text: TextAt) -> bool
    ensures { result ≡ plans.has_leaf new text }
{
    new.node.level == 0 && text.page / PAGE_WORDS as u32 == new.node.prefix
}

// The private leaf of a page of text is among the words of a node, if it is one of its entries.
fn put_leaf(words: &mut Vec<u64>, new: NewNode, text: TextAt)
    requires { length words.old.items ≡ PAGE_WORDS }
    ensures words { words.new.items ≡ with_private_leaf new words.old.items text }
    ensures whole { length words.new.items ≡ PAGE_WORDS }
{
    if has_leaf(new, text) {
        let place = text.page as usize % PAGE_WORDS;
        words[place] = pte_leaf(text.frame, Leaf::Private);
    }
}

// The private leaves of those pages of text that are entries of a node are among its words.
fn put_leaves(words: &mut Vec<u64>, text: &[TextAt], new: NewNode)
    requires { length words.old.items ≡ PAGE_WORDS }
    ensures { words.new.items ≡ fold (with_private_leaf new) words.old.items text.now }
{
    for page in text {
        put_leaf(words, new, *page);
    }
}

// The words of a node of a generation that is born.
fn words_at_birth(blanks: &mut Blanks, nodes: &[NewNode], text: &[TextAt], new: NewNode) -> Vec<u64>
    requires { 0 < blanks.old }
    ensures words { result.items ≡ plans.words_at_birth nodes.now text.now new }
    ensures blanks { blanks.new ≡ blanks.old - 1 }
{
    let mut words = words_of_node(blanks, nodes, new);
    put_leaves(&mut words, text, new);
    words
}

/// The frames of the nodes of a generation that is born are filled with their words. It takes one
/// pass over the nodes and the text for each.
pub(crate) fn fill_table(
    pieces: &mut Roomy<Piece>,
    blanks: &mut Blanks,
    nodes: &[NewNode],
    text: &[TextAt],
)
    requires room { length nodes.now ≤ pieces.old.room }
    requires blanks { length nodes.now ≤ blanks.old }
    ensures { pieces.new ≡ all_pushed (map (table_filled nodes.now text.now) nodes.now) pieces.old }
{
    for new in nodes {
        let words = words_at_birth(blanks, nodes, text, *new);
        pieces.push(Piece::Fill {
            frame: new.node.frame,
            words: Listed::from_vec(words),
        });
    }
}

/// The frames of pages of text are taken.
pub(crate) fn mark_texts(changes: &mut Roomy<Change>, text: &[TextAt])
    requires { length text.now ≤ changes.old.room }
    ensures { changes.new ≡ all_pushed (map text_marked text.now) changes.old }
{
    for page in text {
        changes.push(Change::Mark {
            frame: page.frame,
            raise: false,
        });
    }
}
