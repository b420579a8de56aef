//! Room in the records for what a mapping brings.
ghost use Rattle.std.specs.Prelude.{◌≡◌, IfOk, IsSome, OnOk, length, map};
ghost use Rattle.wf_views.specs.Views.{view_of, with_view};
ghost use Rattle.wf_mapping.specs.Layout.{numbers_of};
ghost use Rattle.wf_mapping.specs.Nodes.{nodes_for};
ghost use Rattle.wf_mapping.specs.Room.{CanMap, DifferInRoom, roomless_view, with_map_room, with_view_room};

use crate::Mapping;
use crate::nodes::nodes_for_pages;
use std::alloc::Global;
use wf_effects::numbers_from;
use wf_outside::{Memory, PAGE_SIZE};
use wf_views::{Records, View, Views};

// The generation of a view.
fn generation_of(view: &View) -> u32
    ensures { result ≡ view.now.generation }
{
    view.generation
}

// Room in the view of a generation for so many more nodes, and for as many places.
fn reserve_view(views: &mut Views, generation: u32, n: u64) -> Result<(), Memory>
    requires { IsSome (view_of views.old generation) }
    ensures made { OnOk result (views.new ≡ with_view views.old generation (with_view_room n)) }
    ensures alike { map roomless_view views.new.views ≡ map roomless_view views.old.views }
    ensures last { views.new.last ≡ views.old.last }
    ensures room { views.new.room ≡ views.old.room }
{
    views.reserve_nodes(generation, n)?;
    views.reserve_reach(generation, n)?;
    Ok(())
}

// Room in each view for so many more nodes, and for as many places.
fn reserve_views(views: &mut Views, n: u64) -> Result<(), Memory>
    ensures made { OnOk result (views.new.views ≡ map (with_view_room n) views.old.views) }
    ensures alike { map roomless_view views.new.views ≡ map roomless_view views.old.views }
    ensures last { views.new.last ≡ views.old.last }
    ensures room { views.new.room ≡ views.old.room }
{
    for i in 0..views.len() {
        let generation = generation_of(views.at(i));
        reserve_view(views, generation, n)?;
    }
    Ok(())
}

// The number of nodes that pages of a mapping may need in a view.
fn nodes_in_view(alloc: Global, mapping: Mapping) -> Result<u64, Memory>
    requires { CanMap mapping }
    ensures { IfOk result (λ n. n ≡ length (nodes_for (numbers_of mapping))) }
{
    let numbers = numbers_from(alloc, (mapping.va / PAGE_SIZE) as u32, mapping.pages)?;
    let nodes = nodes_for_pages(alloc, &numbers)?;
    Ok(nodes.len() as u64)
}

/// Room in the records for a mapping.
///
/// # Errors
///
/// `Memory` where it runs out; some of the room may be made then.
pub(crate) fn reserve_records(
    alloc: Global,
    records: &mut Records,
    mapping: Mapping,
) -> Result<(), Memory>
    requires { CanMap mapping }
    ensures made { OnOk result (records.new ≡ with_map_room records.old mapping) }
    ensures alike { DifferInRoom records.old records.new }
{
    let nodes = nodes_in_view(alloc, mapping)?;
    records.pages.reserve(mapping.pages)?;
    reserve_views(&mut records.views, nodes)
}
