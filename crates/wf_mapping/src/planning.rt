//! Maps of pages: room for the plan, and the plan.
ghost use Rattle.std.specs.Prelude.{◌≡◌, ◌≤◌, ◌+◌, ◌*◌, None, Some, IfOk, IfSome, MatchResult, OnOk, length};
ghost use Rattle.wf_space.specs.Jobs.{IsEmpty, all_pushed};
ghost use Rattle.wf_mapping.specs.Plans.{IsMapPlan, changes_for, pieces_for};
ghost use Rattle.wf_mapping.specs.Refusals.{IsMapFault, refusal_in};
ghost use Rattle.wf_mapping.specs.Room.{CanMap, DifferInRoom, HasRoom, IsRoomFor, with_map_room};

use crate::filling::{
    fill_nodes, fill_pages, make_pages_live, mark_nodes, mark_pages, note_nodes, note_pages,
    store_pointers,
};
use crate::refusing::map_refusal;
use crate::reserving::reserve_records;
use crate::{Blanks, Layout, MapRoom, Mapping, NewNode, lay_out};
use std::alloc::Global;
use wf_outside::{Memory, Refusal};
use wf_space::SpaceFault;
use wf_views::{Change, PageAt, Piece, Plan, Records, Roomy};

// The most pieces of so many pages and nodes; `None` where there is no number for them.
fn most_pieces(pages: u64, nodes: u64) -> Option<u64>
    ensures { IfSome result (λ most. most ≡ 2 * pages + 2 * nodes) }
{
    let both = pages.checked_add(nodes)?;
    both.checked_add(both)
}

// The most changes of so many pages and nodes; `None` where there is no number for them.
fn most_changes(pages: u64, nodes: u64) -> Option<u64>
    ensures { IfSome result (λ most. most ≡ 2 * pages + 3 * nodes + 1) }
{
    let pieces = most_pieces(pages, nodes)?;
    let changes = pieces.checked_add(nodes)?;
    changes.checked_add(1)
}

/// An empty plan with room for so many pieces and changes.
pub fn plan_with(alloc: Global, pieces: u64, changes: u64) -> Result<Plan, Memory>
    ensures empty { IfOk result IsEmpty }
    ensures pieces { IfOk result (λ plan. pieces ≤ plan.pieces.room) }
    ensures changes { IfOk result (λ plan. changes ≤ plan.changes.room) }
{
    let mut plan = Plan::new(alloc);
    plan.pieces.reserve(pieces)?;
    plan.changes.reserve(changes)?;
    Ok(plan)
}

// An empty plan with room for so many pages and nodes.
fn plan_for(alloc: Global, pages: u64, nodes: u64) -> Result<Plan, Memory>
    ensures empty { IfOk result IsEmpty }
    ensures room { IfOk result (HasRoom pages nodes) }
{
    let Some(pieces) = most_pieces(pages, nodes) else {
        return Err(Memory);
    };
    let Some(changes) = most_changes(pages, nodes) else {
        return Err(Memory);
    };
    plan_with(alloc, pieces, changes)
}

// So many pages of zeros, and as many more.
fn blanks_for(alloc: Global, pages: u64, nodes: u64) -> Result<Blanks, Memory>
    ensures { IfOk result (λ blanks. blanks ≡ pages + nodes) }
{
    match pages.checked_add(nodes) {
        Some(count) => Blanks::new(alloc, count),
        None => Err(Memory),
    }
}

// Room for a layout.
fn room_for(alloc: Global, layout: Layout) -> Result<MapRoom, Memory>
    ensures layout { IfOk result (λ room. room.layout ≡ layout) }
    ensures empty { IfOk result (λ room. IsEmpty room.plan) }
    ensures plan { IfOk result
        (λ room. HasRoom (length layout.pages) (length layout.nodes) room.plan) }
    ensures blanks { IfOk result
        (λ room. room.blanks ≡ length layout.pages + length layout.nodes) }
{
    let pages = layout.pages.as_slice().len() as u64;
    let nodes = layout.nodes.as_slice().len() as u64;
    let plan = plan_for(alloc, pages, nodes)?;
    let blanks = blanks_for(alloc, pages, nodes)?;
    Ok(MapRoom {
        layout,
        plan,
        blanks,
    })
}

/// What is made for a mapping before its plan, and room for it in the records. It takes all the
/// memory of the mapping, and changes nothing else.
///
/// # Errors
///
/// `Memory` where it runs out; the records may have more room then.
pub fn prepare_map(
    alloc: Global,
    records: &mut Records,
    mapping: Mapping,
) -> Result<MapRoom, Memory>
    requires { CanMap mapping }
    ensures room { IfOk result (IsRoomFor records.new mapping) }
    ensures made { OnOk result (records.new ≡ with_map_room records.old mapping) }
    ensures alike { DifferInRoom records.old records.new }
{
    reserve_records(alloc, records, mapping)?;
    let layout = lay_out(alloc, records, mapping)?;
    room_for(alloc, layout)
}

// The pieces of pages and nodes that are new.
fn plan_pieces(
    records: &Records,
    pieces: &mut Roomy<Piece>,
    blanks: &mut Blanks,
    pages: &[PageAt],
    nodes: &[NewNode],
)
    requires room { 2 * length pages.now + 2 * length nodes.now ≤ pieces.old.room }
    requires blanks { length pages.now + length nodes.now ≤ blanks.old }
    ensures { pieces.new ≡ all_pushed (pieces_for records.now pages.now nodes.now) pieces.old }
{
    fill_pages(pieces, blanks, pages);
    fill_nodes(pieces, blanks, nodes);
    make_pages_live(pieces, pages);
    store_pointers(pieces, records, nodes);
}

// The changes of so many pages and of nodes that are new.
fn plan_changes(changes: &mut Roomy<Change>, n: u64, pages: &[PageAt], nodes: &[NewNode])
    requires { 2 * length pages.now + 3 * length nodes.now + 1 ≤ changes.old.room }
    ensures { changes.new ≡ all_pushed (changes_for n pages.now nodes.now) changes.old }
{
    mark_pages(changes, pages);
    mark_nodes(changes, nodes);
    note_pages(changes, pages);
    changes.push(Change::Birth { n });
    note_nodes(changes, nodes);
}

/// The plan of a mapping, in the room that was made for it. It takes no memory.
///
/// # Errors
///
/// The first refusal that applies.
pub fn fill_map(records: &Records, room: MapRoom, mapping: Mapping) -> Result<Plan, Refusal>
    requires can { CanMap mapping }
    requires room { IsRoomFor records.now mapping room }
    ensures planned { IfOk result (IsMapPlan records.now mapping) }
    ensures refused { MatchResult result (λ _. refusal_in records.now mapping ≡ None)
        (λ reason. refusal_in records.now mapping ≡ Some reason) }
{
    let MapRoom {
        layout,
        mut plan,
        mut blanks,
    } = room;
    if let Some(reason) = map_refusal(records, mapping, layout.need) {
        return Err(reason);
    }
    let pages = layout.pages.as_slice();
    let nodes = layout.nodes.as_slice();
    plan_pieces(records, &mut plan.pieces, &mut blanks, pages, nodes);
    plan_changes(&mut plan.changes, mapping.pages, pages, nodes);
    Ok(plan)
}

/// The plan of a mapping, whose pages are those of addresses. Nothing is done yet, but that there
/// may be more room in the records.
///
/// # Errors
///
/// `Refused` with the first refusal that applies, and `Memory` where it runs out.
pub fn plan_map(alloc: Global, records: &mut Records, mapping: Mapping) -> Result<Plan, SpaceFault>
    requires { CanMap mapping }
    ensures plan { IfOk result (IsMapPlan records.new mapping) }
    ensures room { OnOk result (records.new ≡ with_map_room records.old mapping) }
    ensures fault { MatchResult result (λ _. refusal_in records.new mapping ≡ None)
        (IsMapFault records.new mapping) }
    ensures alike { DifferInRoom records.old records.new }
{
    let room = prepare_map(alloc, records, mapping)?;
    let plan = fill_map(records, room, mapping)?;
    Ok(plan)
}
