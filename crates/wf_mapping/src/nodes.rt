//! The nodes that page tables get.
ghost use Rattle.std.specs.Prelude.{◌≡◌, ◌==◌, ◌&&◌, ◌++◌, IfOk, OnOk};
ghost use Rattle.std.specs.List.{find, flat_map};
ghost use Rattle.wf_homes.specs.Homes.{nodes_below, tree_nodes};
ghost use Rattle.wf_homes.specs.Kept as kept;
ghost use Rattle.wf_mapping.specs.Nodes as nodes;
ghost use Rattle.wf_mapping.specs.Nodes.{lacks_node, missing_from, missing_in, nodes_for};

use std::alloc::Global;
use wf_flat::add_places;
use wf_outside::{Memory, PAGE_WORDS};
use wf_views::{NodeAt, Records, View};

/// A node that is missing in the page table of a generation.
#[derive(Clone, Copy, Debug, PartialEq, Eq)]
pub struct MissingNode {
    pub generation: u32,
    pub level: u8,
    pub prefix: u32,
}

/// A node that the page table of a generation gets.
#[derive(Clone, Copy, Debug, PartialEq, Eq)]
pub struct NewNode {
    pub generation: u32,
    pub node: NodeAt,
}

// The nodes at levels 1 and 0 of 512 places, of which some are reached, come to others.
fn push_below(nodes: &mut Vec<(u8, u32)>, upper: u32, reach: &[u32]) -> Result<(), Memory>
    ensures { OnOk result (nodes.new.items ≡ nodes.old.items ++ nodes_below reach.now upper) }
{
    nodes.push((1, upper))?;
    for place in reach {
        if *place / PAGE_WORDS as u32 == upper {
            nodes.push((0, *place))?;
        }
    }
    Ok(())
}

// The nodes at levels 1 and 0 come to others.
fn push_all_below(nodes: &mut Vec<(u8, u32)>, uppers: &[u32], reach: &[u32]) -> Result<(), Memory>
    ensures { OnOk result
        (nodes.new.items ≡ nodes.old.items ++ flat_map (nodes_below reach.now) uppers.now) }
{
    for upper in uppers {
        push_below(nodes, *upper, reach)?;
    }
    Ok(())
}

/// The nodes of a page table that reaches these places, each by its level and prefix.
pub fn tree_of(alloc: Global, reach: &[u32]) -> Result<Vec<(u8, u32)>, Memory>
    ensures { IfOk result (λ nodes. nodes.items ≡ tree_nodes reach.now) }
{
    let mut uppers = Vec::new(alloc);
    add_places(&mut uppers, reach)?;
    let mut nodes = Vec::new(alloc);
    nodes.push((2, 0))?;
    push_all_below(&mut nodes, &uppers, reach)?;
    Ok(nodes)
}

/// The nodes of a page table that has leaves for these pages alone.
pub fn nodes_for_pages(alloc: Global, numbers: &[u32]) -> Result<Vec<(u8, u32)>, Memory>
    ensures { IfOk result (λ nodes. nodes.items ≡ nodes_for numbers.now) }
{
    let mut places = Vec::new(alloc);
    add_places(&mut places, numbers)?;
    tree_of(alloc, &places)
}

// The node of a level and prefix.
fn node_of(nodes: &[NodeAt], level: u16, prefix: u32) -> Option<NodeAt>
    ensures { result ≡ find (λ node. (level == node.level) && (prefix == node.prefix)) nodes.now }
{
    for node in nodes {
        if level == u16::from(node.level) && prefix == node.prefix {
            return Some(*node);
        }
    }
    None
}

/// The frame of a view's node of a level and prefix. It takes one pass over the nodes.
pub(crate) fn node_frame(view: &View, level: u16, prefix: u32) -> Option<u32>
    ensures { result ≡ kept.node_frame view.now level prefix }
{
    let node = node_of(view.nodes.as_slice(), level, prefix)?;
    Some(node.frame)
}

// Whether a view has no such node.
fn lacks(view: &View, node: (u8, u32)) -> bool
    ensures { result ≡ lacks_node view.now node }
{
    node_frame(view, u16::from(node.0), node.1).is_none()
}

/// A node that is missing in the page table of a generation.
pub fn missing_node(generation: u32, node: (u8, u32)) -> MissingNode
    ensures { result ≡ nodes.missing_node generation node }
{
    MissingNode {
        generation,
        level: node.0,
        prefix: node.1,
    }
}

// The generation of a view.
fn generation_of(view: &View) -> u32
    ensures { result ≡ view.now.generation }
{
    view.generation
}

// Those of these nodes that a view has not come to others.
fn push_missing(
    missing: &mut Vec<MissingNode>,
    view: &View,
    nodes: &[(u8, u32)],
) -> Result<(), Memory>
    ensures { OnOk result (missing.new.items ≡ missing.old.items ++ missing_in nodes.now view.now) }
{
    let generation = generation_of(view);
    for node in nodes {
        if lacks(view, *node) {
            missing.push(missing_node(generation, *node))?;
        }
    }
    Ok(())
}

/// Those of these nodes that views have not, view by view. It takes one pass over the nodes of each
/// view for each of these.
pub fn missing_nodes(
    alloc: Global,
    records: &Records,
    nodes: &[(u8, u32)],
) -> Result<Vec<MissingNode>, Memory>
    ensures { IfOk result
        (λ missing. missing.items ≡ missing_from nodes.now records.now.views.views) }
{
    let mut missing = Vec::new(alloc);
    for i in 0..records.views.len() {
        push_missing(&mut missing, records.views.at(i), nodes)?;
    }
    Ok(missing)
}
