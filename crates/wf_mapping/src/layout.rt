//! Where pages that are mapped lie, and the nodes that they take.
ghost use Rattle.std.specs.Prelude.{◌≡◌, ◌≤◌, ◌+◌, IfOk, drop, length, take};
ghost use Rattle.wf_outside.specs.declared.sizes.TheConstants.{ADDRESS_PAGES};
ghost use Rattle.wf_mapping.specs.Layout.{IsLayoutOf, missing_for, pages_placed};
ghost use Rattle.wf_mapping.specs.Nodes.{nodes_placed};
ghost use Rattle.wf_mapping.specs.Nodes as spec;
ghost use Rattle.wf_mapping.specs.Room.{CanMap};

use crate::frames::lowest_free;
use crate::nodes::{missing_nodes, nodes_for_pages};
use crate::{MissingNode, NewNode};
use std::alloc::Global;
use wf_effects::numbers_from;
use wf_outside::{Memory, PAGE_SIZE};
use wf_views::{Listed, NodeAt, PageAt, Records};

/// So many pages are mapped, from that of an address on, to be read, or to be read and written.
#[derive(Clone, Copy, Debug, PartialEq, Eq)]
pub struct Mapping {
    pub va: u64,
    pub pages: u64,
    pub write: bool,
}

/// Where the pages of a mapping lie, and the nodes that it takes: each in the lowest free frame, the
/// pages first. `need` is how many frames it needs. Where fewer are free, the last of them are not
/// in the lists.
#[derive(Drop)]
pub struct Layout {
    pub need: u64,
    pub pages: Listed<PageAt>,
    pub nodes: Listed<NewNode>,
}

// Pages from one on, in these frames.
fn place_pages(
    alloc: Global,
    write: bool,
    first: u32,
    frames: &[u32],
) -> Result<Vec<PageAt>, Memory>
    requires { first + length frames.now ≤ ADDRESS_PAGES }
    ensures { IfOk result (λ pages. pages.items ≡ pages_placed write first frames.now) }
{
    let mut pages = Vec::new(alloc);
    for (i, frame) in frames.iter().enumerate() {
        pages.push(PageAt {
            page: first + i as u32,
            write,
            frame: *frame,
            going: false,
            ending: false,
        })?;
    }
    Ok(pages)
}

// A node that was missing, in a frame.
fn place_node(missing: MissingNode, frame: u32) -> NewNode
    ensures { result ≡ spec.node_placed missing frame }
{
    NewNode {
        generation: missing.generation,
        node: NodeAt {
            level: missing.level,
            prefix: missing.prefix,
            frame,
        },
    }
}

/// Nodes that were missing, in these frames.
pub fn place_nodes(
    alloc: Global,
    missing: &[MissingNode],
    frames: &[u32],
) -> Result<Vec<NewNode>, Memory>
    ensures { IfOk result (λ nodes. nodes.items ≡ nodes_placed missing.now frames.now) }
{
    let mut nodes = Vec::new(alloc);
    for (i, frame) in frames.iter().enumerate() {
        if i < missing.len() {
            nodes.push(place_node(missing[i], *frame))?;
        }
    }
    Ok(nodes)
}

// The nodes that the pages of a mapping need, and that live generations have not.
fn missing_for_mapping(
    alloc: Global,
    records: &Records,
    mapping: Mapping,
) -> Result<Vec<MissingNode>, Memory>
    requires { CanMap mapping }
    ensures { IfOk result (λ missing. missing.items ≡ missing_for records.now mapping) }
{
    let numbers = numbers_from(alloc, (mapping.va / PAGE_SIZE) as u32, mapping.pages)?;
    let nodes = nodes_for_pages(alloc, &numbers)?;
    missing_nodes(alloc, records, &nodes)
}

// The first of these frames, so many, or all where there are fewer.
fn first_frames(frames: &[u32], n: u64) -> &[u32]
    ensures { result.now ≡ take n frames.now }
{
    if n < frames.len() as u64 {
        &frames[..n as usize]
    } else {
        frames
    }
}

/// These frames but for the first, so many.
pub fn other_frames(frames: &[u32], n: u64) -> &[u32]
    ensures { result.now ≡ drop n frames.now }
{
    if n < frames.len() as u64 {
        &frames[n as usize..]
    } else {
        &[]
    }
}

/// The layout of a mapping.
pub fn lay_out(alloc: Global, records: &Records, mapping: Mapping) -> Result<Layout, Memory>
    requires { CanMap mapping }
    ensures { IfOk result (IsLayoutOf records.now mapping) }
{
    let missing = missing_for_mapping(alloc, records, mapping)?;
    let need = mapping.pages + missing.len() as u64;
    let frames = lowest_free(alloc, records, need)?;
    let first = (mapping.va / PAGE_SIZE) as u32;
    let of_pages = first_frames(&frames, mapping.pages);
    let pages = place_pages(alloc, mapping.write, first, of_pages)?;
    let nodes = place_nodes(alloc, &missing, other_frames(&frames, mapping.pages))?;
    Ok(Layout {
        need,
        pages: Listed::from_vec(pages),
        nodes: Listed::from_vec(nodes),
    })
}
