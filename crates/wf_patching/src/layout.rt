//! Where all lies that comes with a patch.
ghost use Rattle.std.specs.Prelude.{◌≡◌, ◌<◌, ◌+◌, ◌^◌, IfOk, drop, length};
ghost use Rattle.wf_outside.specs.Images.{data_numbers};
ghost use Rattle.wf_mapping.specs.Layout.{free_in, page_placed};
ghost use Rattle.wf_mapping.specs.Nodes.{missing_from, nodes_for, nodes_placed};
ghost use Rattle.wf_creating.specs.Layout.{full, texts_placed};
ghost use Rattle.wf_patching.specs.Brought as brought;
ghost use Rattle.wf_patching.specs.Brought.{HasDistinctText, patched_reach};
ghost use Rattle.wf_patching.specs.Layout.{IsPatchedWith, patched_nodes, shared_placed};

use crate::brought::{patched_numbers, reach_of_patch, shared_numbers};
use crate::jumps::patched_jumps;
use std::alloc::Global;
use wf_creating::{nodes_of_reach, number_of_birth, place_texts, root_of, table_of};
use wf_mapping::{
    MissingNode, NewNode, lowest_free, missing_nodes, nodes_for_pages, other_frames, place_nodes,
};
use wf_outside::{DataPage, Delta, Memory};
use wf_views::{Listed, Numbers, PageAt, Records, Roomy, TextAt, View};

/// All that comes with a patch: how many frames it needs, the shared pages, the nodes that live
/// generations get, and the nodes and the view of the new generation. Where fewer frames are free,
/// the last of them are not in the lists.
#[derive(Drop)]
pub struct Patched {
    pub need: u64,
    pub shared: Listed<PageAt>,
    pub nodes: Listed<NewNode>,
    pub table: Listed<NewNode>,
    pub view: View,
}

// A shared page, in a frame.
fn place_page(page: &DataPage, frame: u32) -> PageAt
    ensures { result ≡ page_placed page.now.write page.now.number frame }
{
    PageAt {
        page: page.number,
        write: page.write,
        frame,
        going: false,
        ending: false,
    }
}

// Shared pages, in these frames.
fn place_shared(alloc: Global, pages: &[DataPage], frames: &[u32]) -> Result<Vec<PageAt>, Memory>
    ensures { IfOk result (λ placed. placed.items ≡ shared_placed pages.now frames.now) }
{
    let mut placed = Vec::new(alloc);
    for (i, frame) in frames.iter().enumerate() {
        if i < pages.len() {
            placed.push(place_page(&pages[i], *frame))?;
        }
    }
    Ok(placed)
}

// Pages of text of these numbers and shared pages, in these frames, the text first.
fn place_pages(
    alloc: Global,
    numbers: &[u32],
    shared: &[DataPage],
    frames: &[u32],
) -> Result<(Vec<TextAt>, Vec<PageAt>), Memory>
    ensures text { IfOk result (λ made. made.0.items ≡ texts_placed numbers.now frames.now) }
    ensures shared { IfOk result (λ made. made.1.items
        ≡ shared_placed shared.now (drop (length numbers.now) frames.now)) }
{
    let text = place_texts(alloc, numbers, frames)?;
    let behind = other_frames(frames, numbers.len() as u64);
    let pages = place_shared(alloc, shared, behind)?;
    Ok((text, pages))
}

// The nodes that live generations lack, and those of a new one, in these frames, the first first.
fn place_tables(
    alloc: Global,
    lacked: &[MissingNode],
    own: &[MissingNode],
    frames: &[u32],
) -> Result<(Vec<NewNode>, Vec<NewNode>), Memory>
    ensures nodes { IfOk result (λ made. made.0.items ≡ nodes_placed lacked.now frames.now) }
    ensures table { IfOk result (λ made. made.1.items
        ≡ nodes_placed own.now (drop (length lacked.now) frames.now)) }
{
    let nodes = place_nodes(alloc, lacked, frames)?;
    let behind = other_frames(frames, lacked.len() as u64);
    let table = place_nodes(alloc, own, behind)?;
    Ok((nodes, table))
}

// The nodes that shared pages of these numbers need, and that live generations have not.
fn lacked_nodes(
    alloc: Global,
    records: &Records,
    shared: &[u32],
) -> Result<Vec<MissingNode>, Memory>
    ensures { IfOk result (λ missing. missing.items
        ≡ missing_from (nodes_for shared.now) records.now.views.views) }
{
    let nodes = nodes_for_pages(alloc, shared)?;
    missing_nodes(alloc, records, &nodes)
}

// All that comes with a patch, in the lowest free frames: a text of these numbers and shared pages,
// then the nodes that live generations lack, and those of the new one.
fn place_patch(
    alloc: Global,
    records: &Records,
    numbers: &[u32],
    shared: &[DataPage],
    lacked: &[MissingNode],
    own: &[MissingNode],
) -> Result<((Vec<TextAt>, Vec<PageAt>), (Vec<NewNode>, Vec<NewNode>)), Memory>
    ensures text { IfOk result
        (λ made. made.0.0.items ≡ texts_placed numbers.now (free_in records.now)) }
    ensures shared { IfOk result (λ made. made.0.1.items
        ≡ shared_placed shared.now (drop (length numbers.now) (free_in records.now))) }
    ensures nodes { IfOk result (λ made. made.1.0.items ≡ nodes_placed lacked.now
        (drop (length shared.now) (drop (length numbers.now) (free_in records.now)))) }
    ensures table { IfOk result (λ made. made.1.1.items ≡ nodes_placed own.now
        (drop (length lacked.now)
        (drop (length shared.now) (drop (length numbers.now) (free_in records.now))))) }
{
    let texts = numbers.len() as u64;
    let pages = shared.len() as u64;
    let need = texts + pages + lacked.len() as u64 + own.len() as u64;
    let frames = lowest_free(alloc, records, need)?;
    let placed = place_pages(alloc, numbers, shared, &frames)?;
    let behind_text = other_frames(&frames, texts);
    let behind_shared = other_frames(behind_text, pages);
    let tables = place_tables(alloc, lacked, own, behind_shared)?;
    Ok((placed, tables))
}

// The places that the new generation reaches, and the nodes that its page table needs. Its pages of
// text and the shared pages have these numbers.
fn table_with_patch(
    alloc: Global,
    records: &Records,
    parent: u32,
    delta: &Delta,
    numbers: &[u32],
    shared: &[u32],
) -> Result<(Numbers, Vec<MissingNode>), Memory>
    requires numbers { numbers.now ≡ brought.patched_numbers records.now parent delta.now }
    requires shared { shared.now ≡ data_numbers delta.now.shared }
    ensures reach { IfOk result
        (λ made. made.0 ≡ full (patched_reach records.now parent delta.now)) }
    ensures nodes { IfOk result
        (λ made. made.1.items ≡ patched_nodes records.now parent delta.now) }
{
    let generation = number_of_birth(records)?;
    let reach = reach_of_patch(alloc, records, numbers, shared)?;
    let nodes = nodes_of_reach(alloc, generation, &reach)?;
    Ok((reach, nodes))
}

/// The layout of all that comes with the patch of a number, of which a generation is born of this
/// parent.
pub fn lay_out_patch(
    alloc: Global,
    records: &Records,
    parent: u32,
    delta: &Delta,
    patch: u32,
) -> Result<Patched, Memory>
    requires distinct { HasDistinctText records.now parent delta.now }
    requires few { patch + 1 < 2 ^ 32 }
    ensures { IfOk result (IsPatchedWith records.now parent delta.now patch) }
{
    let generation = number_of_birth(records)?;
    let numbers = patched_numbers(alloc, records, parent, delta)?;
    let shared = shared_numbers(alloc, &delta.shared)?;
    let (reach, own) = table_with_patch(alloc, records, parent, delta, &numbers, &shared)?;
    let lacked = lacked_nodes(alloc, records, &shared)?;
    let ((text, pages), (nodes, table)) = place_patch(
        alloc,
        records,
        &numbers,
        &delta.shared,
        &lacked,
        &own,
    )?;
    let table_nodes = table_of(alloc, &table)?;
    let view = View {
        generation,
        parent: Some(parent),
        root: root_of(&table),
        nodes: Roomy::from_vec(table_nodes),
        text,
        jumps: patched_jumps(alloc, records, parent, delta)?,
        patches: patch + 1,
        reach,
        met: Numbers::new(alloc),
        residents: Numbers::new(alloc),
    };
    let need = numbers.len() as u64 + delta.shared.len() as u64;
    Ok(Patched {
        need: need + lacked.len() as u64 + own.len() as u64,
        shared: Listed::from_vec(pages),
        nodes: Listed::from_vec(nodes),
        table: Listed::from_vec(table),
        view,
    })
}
