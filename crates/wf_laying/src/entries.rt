//! Entries of the page table of a view that has met nothing.
ghost use Rattle.std.specs.Prelude.{◌≡◌, ◌<◌, ◌*◌, ◌+◌, ◌==◌, ◌&&◌, None, IfOk, MatchOption, length, map, slice_get};
ghost use Rattle.std.specs.List.{find};
ghost use Rattle.wf_outside.specs.Lists.{IsRising};
ghost use Rattle.wf_views.specs.Lists.{found_by};
ghost use Rattle.wf_homes.specs.Kept.{text_page};
ghost use Rattle.wf_homes.specs.Entries as entries;
ghost use Rattle.wf_homes.specs.Kept as kept;
ghost use Rattle.wf_start.specs.Layout as layout;
ghost use Rattle.wf_start.specs.Laying.{node_words};

use std::alloc::Global;
use wf_outside::{Memory, PAGE_WORDS};
use wf_sv39::{Leaf, pte_leaf, pte_node};
use wf_views::{NodeAt, TextAt, View};

// Where the page of a number stands among pages of text by rising number.
fn text_place(text: &[TextAt], page: u64) -> Option<usize>
    requires { IsRising (map text_page text.now) }
    ensures { MatchOption result (found_by text_page text.now page ≡ None)
        (λ at. (at < length text.now) × (found_by text_page text.now page ≡ slice_get text.now at)) }
{
    text.binary_search_by_key(&page, |text| u64::from(text.page))
        .ok()
}

// The page of text of a number.
fn found_text(text: &[TextAt], page: u64) -> Option<TextAt>
    requires { IsRising (map text_page text.now) }
    ensures { result ≡ found_by text_page text.now page }
{
    match text_place(text, page) {
        Some(at) => Some(text[at]),
        None => None,
    }
}

// The node of a level and prefix.
fn node_of(nodes: &[NodeAt], level: u8, prefix: u64) -> Option<NodeAt>
    ensures { result ≡ find (λ node. (level == node.level) && (prefix == node.prefix)) nodes.now }
{
    for node in nodes {
        if level == node.level && prefix == u64::from(node.prefix) {
            return Some(*node);
        }
    }
    None
}

// The leaf of the page of text of a number; 0 where there is none.
fn text_leaf(view: &View, page: u64) -> u64
    requires { IsRising (map text_page view.now.text) }
    ensures { result ≡ layout.first_entry view.now 0 page }
{
    match found_text(&view.text, page) {
        Some(text) => pte_leaf(text.frame, Leaf::Private),
        None => 0,
    }
}

// The pointer to the node of a level and prefix; 0 where there is none.
fn pointer_to(view: &View, level: u8, prefix: u64) -> u64
    ensures { result ≡ entries.pointer_to (kept.node_frame view.now level prefix) }
{
    match node_of(view.nodes.as_slice(), level, prefix) {
        Some(node) => pte_node(node.frame),
        None => 0,
    }
}

// The entry of a view that has met nothing, in a node of a level, for what has this prefix.
fn first_entry(view: &View, level: u8, prefix: u64) -> u64
    requires { IsRising (map text_page view.now.text) }
    ensures { result ≡ layout.first_entry view.now level prefix }
{
    if level == 0 {
        text_leaf(view, prefix)
    } else {
        pointer_to(view, level - 1, prefix)
    }
}

/// The entries of a node of a view that has met nothing.
pub(crate) fn entries_of(alloc: Global, view: &View, node: NodeAt) -> Result<Vec<u64>, Memory>
    requires { IsRising (map text_page view.now.text) }
    ensures { IfOk result (λ words. words.items ≡ node_words view.now node) }
{
    let mut words = Vec::new(alloc);
    for i in 0..PAGE_WORDS as u64 {
        let prefix = u64::from(node.prefix) * PAGE_WORDS as u64 + i;
        words.push(first_entry(view, node.level, prefix))?;
    }
    Ok(words)
}
