//! View records that are added, found and removed, harts that come to them and leave, and data
//! pages that leave.
ghost use Rattle.std.specs.Prelude.{◌≡◌, ◌<◌, ℕ, IsSomeAnd, true};
ghost use Rattle.wf_frames.specs.Frames.{HasState};
ghost use Rattle.wf_views.specs.Lists.{MayAdd};
ghost use Rattle.wf_views.specs.Records.{IsEnding, IsGoing};
ghost use Rattle.wf_views.specs.Views.{view_of};

use std::alloc::Global;
use std::test::Fail;
use wf_frames::{FrameState, Frames};
use wf_outside::{Limits, Memory};
use wf_views::{
    Change, Listed, NodeAt, Numbers, PageAt, Pages, Piece, Plan, Records, Roomy, View, Views,
};

// A view of a generation that has met these pages, with nothing else in it.
fn view_with(alloc: Global, generation: u32, met: Numbers) -> View
    ensures { result.generation ≡ generation }
{
    View {
        generation,
        parent: None,
        root: 0,
        nodes: Roomy::new(alloc),
        text: Vec::new(alloc),
        jumps: Vec::new(alloc),
        patches: 0,
        reach: Numbers::new(alloc),
        met,
        residents: Numbers::new(alloc),
    }
}

// A view of a generation, with nothing in it.
fn empty_view(alloc: Global, generation: u32) -> View
    ensures { result.generation ≡ generation }
{
    view_with(alloc, generation, Numbers::new(alloc))
}

// Whether the views are those of these generations, in this order.
fn are_of(views: &Views, generations: &[u32]) -> bool {
    if views.len() != generations.len() {
        return false;
    }
    for i in 0..views.len() {
        if views.at(i).generation != generations[i] {
            return false;
        }
    }
    true
}

#[test]
fn views_stand_by_generation(rt: HostRuntime) -> Result<(), Fail> {
    let alloc = rt.alloc();
    let mut views = Views::new(alloc);
    assert!(rt; are_of(&views, &[]));
    views.add(empty_view(alloc, 0))?;
    views.add(empty_view(alloc, 3))?;
    views.add(empty_view(alloc, 7))?;
    assert!(rt; are_of(&views, &[0, 3, 7]));
    assert_eq!(rt; views.newest(), 7);
    for (generation, there) in [(0, true), (1, false), (3, true), (7, true), (8, false)] {
        assert_eq!(rt; views.find(generation).is_some(), there, "{generation}");
    }
    let removed = views.remove(3).map(|view| view.generation);
    assert_eq!(rt; removed, Some(3));
    assert!(rt; views.remove(3).is_none());
    assert!(rt; views.remove(7).is_some());
    assert!(rt; are_of(&views, &[0]));
    assert_eq!(rt; views.newest(), 0);
    // The slab's free keys are taken again, and the order is still that of the generations.
    views.add(empty_view(alloc, 8))?;
    views.add(empty_view(alloc, 9))?;
    assert!(rt; are_of(&views, &[0, 8, 9]));
    for generation in [0, 8, 9] {
        assert!(rt; views.remove(generation).is_some(), "{generation}");
    }
    assert!(rt; are_of(&views, &[]));
    assert!(rt; views.last().is_some());
    assert_eq!(rt; views.newest(), 9, "the greatest ever added");
    Ok(())
}

// Whether these are the residents of the view of a generation.
fn are_residents(views: &Views, generation: u32, harts: &[u32]) -> bool {
    match views.find(generation) {
        Some(view) => view.residents.as_slice() == harts,
        None => false,
    }
}

#[test]
fn harts_come_to_a_view_once(rt: HostRuntime) -> Result<(), Fail> {
    let alloc = rt.alloc();
    let mut views = Views::new(alloc);
    views.add(empty_view(alloc, 0))?;
    views.add(empty_view(alloc, 1))?;
    for hart in [5, 2, 5, 63] {
        assert!(rt; views.find(0).is_some());
        views.admit(0, hart)?;
    }
    assert!(rt; are_residents(&views, 0, &[2, 5, 63]));
    assert!(rt; are_residents(&views, 1, &[]));
    assert!(rt; views.find(0).is_some());
    views.release(0, 5);
    assert!(rt; are_residents(&views, 0, &[2, 63]));
    assert!(rt; views.find(1).is_some());
    views.admit(1, 5)?;
    assert!(rt; are_residents(&views, 1, &[5]));
    assert!(rt; are_residents(&views, 0, &[2, 63]));
    Ok(())
}

// Whether there is room in the view of a generation for one more node, place and page.
fn has_room(views: &Views, generation: u32) -> bool
    ensures node { result ≡ true
        → IsSomeAnd (view_of views.now generation) (λ v. 0 < v.nodes.room) }
    ensures reach { result ≡ true → (place : ℕ)
        → IsSomeAnd (view_of views.now generation) (λ v. MayAdd place v.reach) }
    ensures met { result ≡ true → (page : ℕ)
        → IsSomeAnd (view_of views.now generation) (λ v. MayAdd page v.met) }
{
    match views.find(generation) {
        Some(view) => view.nodes.room() > 0 && view.reach.room() > 0 && view.met.room() > 0,
        None => false,
    }
}

#[test]
fn room_is_made_before_it_is_used(rt: HostRuntime) -> Result<(), Fail> {
    let alloc = rt.alloc();
    let mut views = Views::new(alloc);
    views.reserve(2)?;
    assert_eq!(rt; views.room(), 2);
    views.add(empty_view(alloc, 4))?;
    assert_eq!(rt; views.room(), 1);
    assert!(rt; views.find(4).is_some());
    views.reserve_nodes(4, 3)?;
    assert!(rt; views.find(4).is_some());
    views.reserve_reach(4, 3)?;
    assert!(rt; views.find(4).is_some());
    views.reserve_met(4, 3)?;
    assert!(rt; views.find(4).is_some());
    views.reserve_residents(4, 1)?;
    let node = NodeAt {
        level: 0,
        prefix: 1,
        frame: 9,
    };
    assert!(rt; has_room(&views, 4));
    views.add_node(4, node);
    assert!(rt; has_room(&views, 4));
    views.add_reach(4, 1);
    assert!(rt; has_room(&views, 4));
    views.add_met(4, 0x212);
    let view = views.remove(4).expect(&rt, "it is there");
    assert!(rt; view.nodes.as_slice() == [node].as_slice() && view.nodes.room() == 2);
    assert!(rt; view.reach.as_slice() == [1].as_slice() && view.reach.room() == 2);
    assert!(rt; view.met.as_slice() == [0x212].as_slice() && view.met.room() == 2);
    assert!(rt; view.residents.as_slice().is_empty() && view.residents.room() == 1);
    Ok(())
}

#[test]
fn a_plan_takes_no_memory_for_what_has_room(rt: HostRuntime) -> Result<(), Fail> {
    let alloc = rt.alloc();
    let mut plan = Plan::new(alloc);
    assert!(rt; plan.pieces.as_slice().is_empty() && plan.changes.as_slice().is_empty());
    plan.pieces.reserve(1)?;
    plan.changes.reserve(2)?;
    let words = Listed::from_vec(Roomy::from_vec(vec![in alloc; 7, 8]?).into_vec());
    assert!(rt; words.as_slice() == [7, 8].as_slice());
    assert!(rt; plan.pieces.room() == 1 && plan.changes.room() == 2);
    plan.pieces.push(Piece::Fill { frame: 9, words });
    plan.changes.push(Change::Birth { n: 1 });
    assert!(rt; plan.pieces.room() == 0 && plan.changes.room() == 1);
    let filled = match plan.pieces.as_slice().first() {
        Some(Piece::Fill { frame, words }) => *frame == 9 && words.as_slice().len() == 2,
        _ => false,
    };
    assert!(rt; filled);
    Ok(())
}

// A small machine, whose frames have one incarnation as data.
fn small() -> Limits {
    Limits {
        frames: 64,
        last_writes: 3,
        last_birth: 1,
    }
}

// A data page that is here.
fn page_here(page: u32, frame: u32) -> PageAt
    ensures { result.page ≡ page }
{
    PageAt {
        page,
        write: true,
        frame,
        going: false,
        ending: false,
    }
}

// These numbers, each once.
fn numbers(alloc: Global, from: &[u32]) -> Result<Numbers, Memory> {
    let mut numbers = Numbers::new(alloc);
    for number in from {
        numbers.put(*number)?;
    }
    Ok(numbers)
}

// The pages 0x12 in frame 5 and 0x13 in frame 6. The view of generation 0 has met both, and that of
// generation 1 has met 0x12.
fn two_pages(alloc: Global, frames: Frames) -> Result<Records, Memory> {
    let mut pages = Pages::new(alloc);
    for (page, frame) in [(0x13, 6), (0x12, 5)] {
        if pages.find(page).is_none() {
            pages.reserve(1)?;
            pages.add(page_here(page, frame));
        }
    }
    let mut views = Views::new(alloc);
    views.add(view_with(alloc, 0, numbers(alloc, &[0x13, 0x12, 0x13])?))?;
    views.add(view_with(alloc, 1, numbers(alloc, &[0x12])?))?;
    Ok(Records {
        frames,
        views,
        pages,
        born: Roomy::new(alloc),
        births: 2,
        limits: small(),
    })
}

// Whether a page is going, and its frame is in use.
fn is_going(records: &Records, page: u32) -> bool
    ensures { result ≡ true → IsGoing records.now page }
{
    let Some(page) = records.pages.find(page) else {
        return false;
    };
    page.going && is_in_use(&records.frames, page.frame)
}

// Whether a page is ending, and its frame is in use.
fn is_ending(records: &Records, page: u32) -> bool
    ensures { result ≡ true → IsEnding records.now page }
{
    let Some(page) = records.pages.find(page) else {
        return false;
    };
    page.ending && is_in_use(&records.frames, page.frame)
}

// Whether a frame is in use.
fn is_in_use(frames: &Frames, frame: u32) -> bool
    ensures { result ≡ true → HasState frames.now.frames frame FrameState.InUse }
{
    if frame >= frames.count() {
        return false;
    }
    match frames.state(frame) {
        FrameState::Free => false,
        FrameState::InUse => true,
        FrameState::Worn => false,
    }
}

// Whether these are the pages that the view of a generation has met.
fn are_met(records: &Records, generation: u32, pages: &[u32]) -> bool {
    match records.views.find(generation) {
        Some(view) => view.met.as_slice() == pages,
        None => false,
    }
}

#[test]
fn a_held_page_is_ending_until_it_is_settled(rt: HostRuntime) -> Result<(), Fail> {
    let alloc = rt.alloc();
    let mut frames = Frames::new(alloc, small())?;
    assert!(rt; frames.count() == 64 && frames.state(5) == FrameState::Free);
    frames.mark(5);
    assert!(rt; frames.count() == 64);
    frames.raise(5);
    assert!(rt; frames.count() == 64 && frames.state(6) == FrameState::Free);
    frames.mark(6);
    let mut records = two_pages(alloc, frames)?;
    // Both are unmapped while a hart holds 0x12: that one is ending, and the other one is gone.
    records.pages.set_going(0x12);
    records.pages.set_going(0x13);
    assert!(rt; is_going(&records, 0x12));
    assert!(rt; !records.leave(0x12, true));
    assert!(rt; is_ending(&records, 0x12) && !is_going(&records, 0x12));
    assert!(rt; are_met(&records, 0, &[0x13]) && are_met(&records, 1, &[]));
    assert!(rt; is_going(&records, 0x13));
    assert!(rt;
        !records.leave(0x13, false),
        "frame 6 had no incarnation as data"
    );
    assert!(rt; records.pages.find(0x13).is_none() && are_met(&records, 0, &[]));
    assert_eq!(rt; records.frames.lowest(6), Some(6));
    // The hart has given 0x12 back. Its frame was in its last incarnation.
    assert!(rt; is_ending(&records, 0x12));
    assert!(rt; records.settle(0x12), "frame 5 is worn");
    assert!(rt; records.pages.as_slice().is_empty());
    assert_eq!(rt; records.frames.free(), 63);
    Ok(())
}
