//! Leaves of pages of data.
ghost use Rattle.std.specs.Prelude.{◌≡◌, ◌==◌, ◌&&◌};
ghost use Rattle.std.specs.List.{find};
ghost use Rattle.wf_space.specs.Leaves as leaves;

use wf_outside::PAGE_WORDS;
use wf_sv39::{Leaf, pte_leaf};
use wf_views::{NodeAt, PageAt, View};

/// The number of the word that is a page's leaf, in the node at level 0 in a frame, in a machine of
/// so many frames.
pub(crate) fn leaf_place(frames: u32, node: u32, page: u32) -> u64
    ensures { result ≡ leaves.leaf_place frames node page }
{
    let words = PAGE_WORDS as u64;
    1 + u64::from(frames) + words * u64::from(node) + u64::from(page) % words
}

/// The leaf of a page of data, with its right.
pub(crate) fn leaf_for(page: PageAt) -> u64
    ensures { result ≡ leaves.leaf_for page }
{
    if page.write {
        pte_leaf(page.frame, Leaf::Write)
    } else {
        pte_leaf(page.frame, Leaf::Read)
    }
}

// The node at level 0 of a prefix.
fn lowest_node(nodes: &[NodeAt], prefix: u32) -> Option<NodeAt>
    ensures { result ≡ find (λ node. (0 == node.level) && (prefix == node.prefix)) nodes.now }
{
    for node in nodes {
        if 0 == node.level && prefix == node.prefix {
            return Some(*node);
        }
    }
    None
}

/// The frame of a view's node for the leaf of a page; `None` where it has none. It takes one pass
/// over the nodes.
pub(crate) fn node_for(view: &View, page: u32) -> Option<u32>
    ensures { result ≡ leaves.node_for view.now page }
{
    let node = lowest_node(view.nodes.as_slice(), page / PAGE_WORDS as u32)?;
    Some(node.frame)
}
