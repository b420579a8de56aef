//! Pages that harts note, harts that move, generations that end, and runs of pages.
use crate::machines::{shared_page, two_harts};
use std::alloc::Global;
use std::test::Fail;
use wf_effects::{generation_dead, hart_moved, is_live, lowest_in, newest, pages_noted, runs_of};
use wf_flat::{Actor, Flat};
use wf_outside::Memory;

// Each hart with each page that has moved for it.
fn moved(alloc: Global, flat: &Flat) -> Result<Vec<(usize, u32)>, Memory> {
    let mut moved = Vec::new(alloc);
    for h in 0..flat.harts.len() {
        for page in &flat.harts[h].moved {
            moved.push((h, *page))?;
        }
    }
    Ok(moved)
}

#[test]
fn all_but_the_actor_note_pages(rt: HostRuntime) -> Result<(), Fail> {
    let alloc = rt.alloc();
    let mut flat = two_harts(alloc)?;
    pages_noted(alloc, &mut flat, Actor::Hart(0), &[0x21, 0x20, 0x21])?;
    assert_eq!(rt;
        moved(alloc, &flat)?.as_slice(),
        [(1, 0x20), (1, 0x21)].as_slice()
    );
    pages_noted(alloc, &mut flat, Actor::Kernel, &[0x1F])?;
    assert_eq!(rt;
        moved(alloc, &flat)?.as_slice(),
        [(0, 0x1F), (1, 0x1F), (1, 0x20), (1, 0x21)].as_slice()
    );
    Ok(())
}

#[test]
fn the_last_generation_is_left_and_ends(rt: HostRuntime) -> Result<(), Fail> {
    let mut flat = two_harts(rt.alloc())?;
    assert_eq!(rt; newest(&flat), 0);
    assert_eq!(rt; lowest_in(&flat, 0), Some(0));
    hart_moved(&mut flat, 0, 1);
    assert_eq!(rt;
        (lowest_in(&flat, 0), lowest_in(&flat, 1)),
        (Some(1), Some(0))
    );
    assert_eq!(rt;
        (is_live(&flat, 0), is_live(&flat, 1), is_live(&flat, 2)),
        (true, false, false)
    );
    generation_dead(&mut flat, 0);
    assert_eq!(rt; is_live(&flat, 0), false);
    assert_eq!(rt; newest(&flat), 1);
    Ok(())
}

#[test]
fn runs_end_at_gaps_and_other_rights(rt: HostRuntime) -> Result<(), Fail> {
    let alloc = rt.alloc();
    let mut pages = Vec::new(alloc);
    for (number, write) in [(3, true), (4, true), (5, false), (7, false), (8, false)] {
        pages.push(shared_page(alloc, number, write)?)?;
    }
    let mut shown = Vec::new(alloc);
    for run in &runs_of(alloc, &pages)? {
        shown.push((run.first, run.count, run.write))?;
    }
    assert_eq!(rt;
        shown.as_slice(),
        [(3, 2, true), (5, 1, false), (7, 2, false)].as_slice()
    );
    Ok(())
}
