//! The views of all live generations.
ghost use Rattle.std.specs.Prelude.{◌≡◌, ◌<◌, ◌≤◌, [], None, Some, OnOk, OnErr, IsOk, IsSome, IsSomeAnd, MatchOption, get_or, length, map, max, option_copied, slice_get};
ghost use Rattle.slab.specs.Slab.{slab_len};
ghost use Rattle.wf_outside.specs.Lists.{IsRising};
ghost use Rattle.wf_views.specs.Kept.{AreAt, IsKeyOf, place_number, views_at};
ghost use Rattle.wf_views.specs.Lists.{MayAdd, found_by};
ghost use Rattle.wf_views.specs.Views.{IsAbove, WereAdded, forgets, forgotten, generation_number, newest_of, view_of, with_added, with_page_met, with_met_room, with_node, with_node_room, with_reach, with_reach_room, with_removed, with_resident, with_resident_room, with_view, without_resident};

use crate::{NodeAt, View};
use slab::Slab;
use std::alloc::Global;
use std::marker::Model;
use wf_outside::Memory;

/// The views of all live generations. What contracts see is their list by rising generation, the
/// greatest generation that was ever added, and room for more.
#[derive(Drop)]
pub struct Views {
    slab: Slab<View>,
    // By rising generation.
    places: Vec<Place>,
    last: Option<u32>,
    room: u64,
}

// Where the view of a generation stands in the slab.
#[derive(Clone, Copy)]
struct Place {
    generation: u32,
    key: usize,
}

impl Model for Views {
    ghost use Rattle.std.specs.Prelude.{vec_capacity};
    ghost use Rattle.wf_views.specs.Views.{ViewsValue};
    ghost use Rattle.wf_views.specs.Kept.{views_at, AreViews};

    ghost Value = { ViewsValue };

    ghost view = { λ v. record {
      views = views_at v.slab v.places.items;
      last = v.last;
      room = v.room;
    } };

    ghost invariant = { λ v. AreViews v.slab v.places.items v.last v.room (vec_capacity v.places) };
}

impl Views {
    /// No views, and no room.
    pub fn new(alloc: Global) -> Views
        ensures views { result.views ≡ [] }
        ensures last { result.last ≡ None }
        ensures room { result.room ≡ 0 }
    {
        Views {
            slab: Slab::new(alloc),
            places: Vec::new(alloc),
            last: None,
            room: 0,
        }
    }

    /// How many views there are.
    pub fn len(&self) -> usize
        ensures value { result ≡ length self.now.views }
        ensures rising { IsRising (map generation_number self.now.views) }
        ensures added { WereAdded self.now }
    {
        self.places.len()
    }

    /// The view at a place, where views are counted from 0 by rising generation.
    pub fn at(&self, i: usize) -> &View
        requires { i < length self.now.views }
        ensures { slice_get self.now.views i ≡ Some result.now }
    {
        let place = self.places[i];
        &self.slab[place.key]
    }

    /// The view of a generation; `None` where there is none. It takes time in the logarithm of the
    /// views.
    pub fn find(&self, generation: u32) -> Option<&View>
        ensures { option_copied result ≡ view_of self.now generation }
    {
        let at = place_of(&self.places, generation)?;
        let place = self.places[at];
        self.slab.get(place.key)
    }

    /// The greatest generation that was ever added; `None` where none was.
    pub fn last(&self) -> Option<u32>
        ensures { result ≡ self.now.last }
    {
        self.last
    }

    /// The greatest generation that has a view, or the greatest that was ever added where none has
    /// one. One was added.
    pub fn newest(&self) -> u32
        requires { IsSome self.now.last }
        ensures { newest_of self.now ≡ Some result }
    {
        match self.places.last() {
            Some(place) => place.generation,
            None => self.last.unwrap(),
        }
    }

    /// How many views come without memory.
    pub fn room(&self) -> u64
        ensures { result ≡ self.now.room }
    {
        self.room
    }

    /// Makes room for so many views, unless there is more already. Where it fails nothing changes.
    pub fn reserve(&mut self, room: u64) -> Result<(), Memory>
        ensures ok { OnOk result (self.new ≡ record self.old { room = max self.old.room room }) }
        ensures err { OnErr result (self.new ≡ self.old) }
        ensures succeeds { room ≤ self.old.room → IsOk result }
    {
        if room <= self.room {
            return Ok(());
        }
        self.slab.reserve(room as usize)?;
        self.places.reserve(room as usize)?;
        self.room = room;
        Ok(())
    }

    /// One more view, of a generation above all that were added. Where it fails nothing changes.
    pub fn add(&mut self, view: View) -> Result<(), Memory>
        requires { IsAbove self.old.last view.generation }
        ensures ok { OnOk result (self.new ≡ with_added self.old view) }
        ensures err { OnErr result (self.new ≡ self.old) }
        ensures succeeds { 0 < self.old.room → IsOk result }
    {
        self.reserve(1)?;
        let generation = view.generation;
        let key = self.slab.insert_reserved(view);
        self.places.push_reserved(Place { generation, key });
        self.last = Some(generation);
        self.room -= 1;
        Ok(())
    }

    /// The view of a generation is taken out; `None` where there is none. It takes one pass over
    /// the views.
    pub fn remove(&mut self, generation: u32) -> Option<View>
        ensures value { result ≡ view_of self.old generation }
        ensures rest { self.new ≡ with_removed self.old generation }
    {
        let at = place_of(&self.places, generation)?;
        let place = self.places.remove(at);
        self.slab.try_remove(place.key)
    }

    /// A hart is among the residents of a view, once. Where it fails nothing changes.
    pub fn admit(&mut self, generation: u32, hart: u8) -> Result<(), Memory>
        requires { IsSome (view_of self.old generation) }
        ensures ok { OnOk result (self.new ≡ with_view self.old generation (with_resident hart)) }
        ensures err { OnErr result (self.new ≡ self.old) }
        ensures succeeds { IsSomeAnd (view_of self.old generation)
            (λ v. MayAdd hart v.residents → IsOk result) }
    {
        let key = key_of(&self.slab, &self.places, generation);
        let view = &mut self.slab[key];
        view.residents.put(u32::from(hart))
    }

    /// A hart is not among the residents of a view.
    pub fn release(&mut self, generation: u32, hart: u8)
        requires { IsSome (view_of self.old generation) }
        ensures { self.new ≡ with_view self.old generation (without_resident hart) }
    {
        let key = key_of(&self.slab, &self.places, generation);
        let view = &mut self.slab[key];
        view.residents.remove(u32::from(hart));
    }

    /// A view has one more node, for which there is room.
    pub fn add_node(&mut self, generation: u32, node: NodeAt)
        requires { IsSomeAnd (view_of self.old generation) (λ v. 0 < v.nodes.room) }
        ensures { self.new ≡ with_view self.old generation (with_node node) }
    {
        let key = key_of(&self.slab, &self.places, generation);
        let view = &mut self.slab[key];
        view.nodes.push(node);
    }

    /// A view reaches one more place, the number of a page divided by 512. There is room for it,
    /// unless it is reached already.
    pub fn add_reach(&mut self, generation: u32, place: u32)
        requires { IsSomeAnd (view_of self.old generation) (λ v. MayAdd place v.reach) }
        ensures { self.new ≡ with_view self.old generation (with_reach place) }
    {
        let key = key_of(&self.slab, &self.places, generation);
        let view = &mut self.slab[key];
        view.reach.add(place);
    }

    /// A view has met one more page. There is room for it, unless it was met already.
    pub fn add_met(&mut self, generation: u32, page: u32)
        requires { IsSomeAnd (view_of self.old generation) (λ v. MayAdd page v.met) }
        ensures { self.new ≡ with_view self.old generation (with_page_met page) }
    {
        let key = key_of(&self.slab, &self.places, generation);
        let view = &mut self.slab[key];
        view.met.add(page);
    }

    /// Makes room in a view for so many more nodes, unless there is more already. Where it fails
    /// nothing changes.
    pub fn reserve_nodes(&mut self, generation: u32, room: u64) -> Result<(), Memory>
        requires { IsSome (view_of self.old generation) }
        ensures ok { OnOk result (self.new ≡ with_view self.old generation (with_node_room room)) }
        ensures err { OnErr result (self.new ≡ self.old) }
        ensures succeeds { IsSomeAnd (view_of self.old generation)
            (λ v. room ≤ v.nodes.room → IsOk result) }
    {
        let key = key_of(&self.slab, &self.places, generation);
        let view = &mut self.slab[key];
        view.nodes.reserve(room)
    }

    /// Makes room in a view for so many more places that it reaches, unless there is more already.
    /// Where it fails nothing changes.
    pub fn reserve_reach(&mut self, generation: u32, room: u64) -> Result<(), Memory>
        requires { IsSome (view_of self.old generation) }
        ensures ok { OnOk result (self.new ≡ with_view self.old generation (with_reach_room room)) }
        ensures err { OnErr result (self.new ≡ self.old) }
        ensures succeeds { IsSomeAnd (view_of self.old generation)
            (λ v. room ≤ v.reach.room → IsOk result) }
    {
        let key = key_of(&self.slab, &self.places, generation);
        let view = &mut self.slab[key];
        view.reach.reserve(room)
    }

    /// Makes room in a view for so many more pages that it meets, unless there is more already.
    /// Where it fails nothing changes.
    pub fn reserve_met(&mut self, generation: u32, room: u64) -> Result<(), Memory>
        requires { IsSome (view_of self.old generation) }
        ensures ok { OnOk result (self.new ≡ with_view self.old generation (with_met_room room)) }
        ensures err { OnErr result (self.new ≡ self.old) }
        ensures succeeds { IsSomeAnd (view_of self.old generation)
            (λ v. room ≤ v.met.room → IsOk result) }
    {
        let key = key_of(&self.slab, &self.places, generation);
        let view = &mut self.slab[key];
        view.met.reserve(room)
    }

    /// Makes room in a view for so many more residents, unless there is more already. Where it
    /// fails nothing changes.
    pub fn reserve_residents(&mut self, generation: u32, room: u64) -> Result<(), Memory>
        requires { IsSome (view_of self.old generation) }
        ensures ok { OnOk result
            (self.new ≡ with_view self.old generation (with_resident_room room)) }
        ensures err { OnErr result (self.new ≡ self.old) }
        ensures succeeds { IsSomeAnd (view_of self.old generation)
            (λ v. room ≤ v.residents.room → IsOk result) }
    {
        let key = key_of(&self.slab, &self.places, generation);
        let view = &mut self.slab[key];
        view.residents.reserve(room)
    }

    /// No view has met a page. It takes one pass over the views, and one over what each has met.
    pub(crate) fn forget(&mut self, page: u32)
        ensures { self.new ≡ forgotten page self.old }
    {
        forget_at(&mut self.slab, &self.places, page);
    }
}

// The place of the view of a generation.
fn place_of(places: &[Place], generation: u32) -> Option<usize>
    requires { IsRising (map place_number places.now) }
    ensures { MatchOption result (found_by place_number places.now generation ≡ None)
        (λ at. (at < length places.now)
        × (found_by place_number places.now generation ≡ slice_get places.now at)) }
{
    places
        .binary_search_by_key(&generation, |place| place.generation)
        .ok()
}

// The key of the view of a generation, which is there.
fn key_of(slab: &Slab<View>, places: &[Place], generation: u32) -> usize
    requires at { AreAt slab.now places.now }
    requires rising { IsRising (map place_number places.now) }
    requires there { IsSome (found_by generation_number (views_at slab.now places.now) generation) }
    ensures { IsKeyOf slab.now places.now generation result }
{
    let Some(at) = place_of(places, generation) else {
        unreachable!();
    };
    places[at].key
}

// No view at these places has met a page.
fn forget_at(slab: &mut Slab<View>, places: &[Place], page: u32)
    requires at { AreAt slab.old places.now }
    requires rising { IsRising (map place_number places.now) }
    ensures at { AreAt slab.new places.now }
    ensures views { views_at slab.new places.now
        ≡ map (forgets page) (views_at slab.old places.now) }
    ensures len { slab_len slab.new ≡ slab_len slab.old }
    ensures capacity { slab.new.capacity ≡ slab.old.capacity }
{
    for place in places {
        let view = &mut slab[place.key];
        view.met.remove(page);
    }
}
