//! Where the text and the nodes of a generation lie that is born.
ghost use Rattle.std.specs.Prelude.{◌≡◌, IfOk, drop, length, map};
ghost use Rattle.wf_homes.specs.Homes.{tree_nodes};
ghost use Rattle.wf_mapping.specs.Layout.{free_in};
ghost use Rattle.wf_mapping.specs.Nodes.{nodes_placed};
ghost use Rattle.wf_mapping.specs.Nodes as tables;
ghost use Rattle.wf_creating.specs.Layout as births;
ghost use Rattle.wf_creating.specs.Layout.{IsBirthOf, number_at_birth, texts_placed};

use crate::parents::{parent_jumps, parent_patches, parent_text, reach_of_birth, text_numbers};
use std::alloc::Global;
use wf_mapping::{
    MissingNode, NewNode, lowest_free, missing_node, other_frames, place_nodes, tree_of,
};
use wf_outside::Memory;
use wf_views::{Listed, NodeAt, Numbers, Records, Roomy, TextAt, View};

/// A generation that is born: how many frames it needs, its nodes, and its view. Where fewer frames
/// are free, the last pages and nodes are not in the lists.
#[derive(Drop)]
pub struct Birth {
    pub need: u64,
    pub nodes: Listed<NewNode>,
    pub view: View,
}

/// The number of the generation that is born next.
pub fn number_of_birth(records: &Records) -> Result<u32, Memory>
    ensures { IfOk result (λ number. number ≡ number_at_birth records.now) }
{
    match u32::try_from(records.born.as_slice().len()) {
        Ok(number) => Ok(number),
        Err(_) => Err(Memory),
    }
}

/// Pages of text of these numbers, in these frames.
pub fn place_texts(alloc: Global, numbers: &[u32], frames: &[u32]) -> Result<Vec<TextAt>, Memory>
    ensures { IfOk result (λ text. text.items ≡ texts_placed numbers.now frames.now) }
{
    let mut text = Vec::new(alloc);
    for (i, frame) in frames.iter().enumerate() {
        if i < numbers.len() {
            text.push(TextAt {
                page: numbers[i],
                frame: *frame,
            })?;
        }
    }
    Ok(text)
}

// Nodes that are missing in the page table of a generation.
fn missing_of(
    alloc: Global,
    generation: u32,
    nodes: &[(u8, u32)],
) -> Result<Vec<MissingNode>, Memory>
    ensures { IfOk result
        (λ missing. missing.items ≡ map (tables.missing_node generation) nodes.now) }
{
    let mut missing = Vec::new(alloc);
    for node in nodes {
        missing.push(missing_node(generation, *node))?;
    }
    Ok(missing)
}

/// The nodes of the page table of a generation that reaches these places.
pub fn nodes_of_reach(
    alloc: Global,
    generation: u32,
    reach: &Numbers,
) -> Result<Vec<MissingNode>, Memory>
    ensures { IfOk result (λ missing. missing.items
        ≡ map (tables.missing_node generation) (tree_nodes reach.now.items)) }
{
    let nodes = tree_of(alloc, reach.as_slice())?;
    missing_of(alloc, generation, &nodes)
}

// Pages of text of these numbers and these nodes, in the lowest free frames.
fn place_birth(
    alloc: Global,
    records: &Records,
    numbers: &[u32],
    missing: &[MissingNode],
) -> Result<(Vec<TextAt>, Vec<NewNode>), Memory>
    ensures text { IfOk result
        (λ made. made.0.items ≡ texts_placed numbers.now (free_in records.now)) }
    ensures nodes { IfOk result (λ made. made.1.items
        ≡ nodes_placed missing.now (drop (length numbers.now) (free_in records.now))) }
{
    let pages = numbers.len() as u64;
    let frames = lowest_free(alloc, records, pages + missing.len() as u64)?;
    let text = place_texts(alloc, numbers, &frames)?;
    let nodes = place_nodes(alloc, missing, other_frames(&frames, pages))?;
    Ok((text, nodes))
}

/// The nodes alone, without their generation.
pub fn table_of(alloc: Global, nodes: &[NewNode]) -> Result<Vec<NodeAt>, Memory>
    ensures { IfOk result (λ table. table.items ≡ map (λ new. new.node) nodes.now) }
{
    let mut table = Vec::new(alloc);
    for new in nodes {
        table.push(new.node)?;
    }
    Ok(table)
}

/// The frame of the first of these nodes.
pub fn root_of(nodes: &[NewNode]) -> u32
    ensures { result ≡ births.root_of nodes.now }
{
    match nodes.first() {
        Some(new) => new.node.frame,
        None => 0,
    }
}

/// The layout of a generation that is born of this parent.
pub fn lay_out_birth(alloc: Global, records: &Records, parent: u32) -> Result<Birth, Memory>
    ensures { IfOk result (IsBirthOf records.now parent) }
{
    let generation = number_of_birth(records)?;
    let numbers = text_numbers(alloc, parent_text(records, parent))?;
    let reach = reach_of_birth(alloc, records, parent, &numbers)?;
    let missing = nodes_of_reach(alloc, generation, &reach)?;
    let (text, nodes) = place_birth(alloc, records, &numbers, &missing)?;
    let table = table_of(alloc, &nodes)?;
    let jumps = parent_jumps(records, parent).to_vec(alloc)?;
    let view = View {
        generation,
        parent: Some(parent),
        root: root_of(&nodes),
        nodes: Roomy::from_vec(table),
        text,
        jumps,
        patches: parent_patches(records, parent),
        reach,
        met: Numbers::new(alloc),
        residents: Numbers::new(alloc),
    };
    Ok(Birth {
        need: numbers.len() as u64 + missing.len() as u64,
        nodes: Listed::from_vec(nodes),
        view,
    })
}
