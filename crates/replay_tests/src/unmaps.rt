//! A page that a hart unmaps, whose frame may be worn.
ghost use Rattle.std.specs.Prelude.{◌≤◌};
ghost use Rattle.wf_outside.specs.declared.sizes.TheConstants.{MOST_BIRTHS};

use crate::machines::{push_call, start};
use std::alloc::Global;
use std::process::Abort;
use std::test::Fail;
use wf_flat::{Actor, Entry, Event};
use wf_replay::{ReplayFault, replay};

// An unmap of the highest page of the stack: `lui x10, 0xfffff`, `add x10, x10, x2`,
// `addi x11, x0, 1`, `addi x17, x0, 3`, `ecall`.
const UNMAP: [u32; 5] = [
    0xFFFF_F537,
    0x0025_0533,
    0x0010_0593,
    0x0030_0893,
    0x0000_0073,
];

// The page.
const PAGE: u32 = 0x3E0_000F;

// How many frames are worn, and how many pages of data are there, behind these events of the call
// of a hart that unmaps one of the four pages, where a frame has so many births.
fn unmapped(
    rt: &impl Abort,
    alloc: Global,
    last_birth: u64,
    events: &[Event],
) -> Result<Result<(u64, usize), ReplayFault>, Fail>
    requires some_birth { 1 ≤ last_birth }
    requires all_births { last_birth ≤ MOST_BIRTHS }
{
    let deltas = [];
    let flat = start(alloc, &UNMAP, last_birth, &deltas)?;
    assert_eq!(rt; flat.births, 4);
    let mut journal = Vec::new(alloc);
    push_call(&mut journal, &UNMAP)?;
    for event in events {
        journal.push(Entry {
            actor: Actor::Hart(0),
            event: *event,
        })?;
    }
    assert!(rt; journal.len() < 20);
    match replay(alloc, flat, &journal, &deltas) {
        Ok(end) => Ok(Ok((end.worn, end.pages.len()))),
        Err(fault) => Ok(Err(fault)),
    }
}

// The events of an unmap.
const GOING: Event = Event::Going { page: PAGE, n: 1 };

const GONE: Event = Event::Gone {
    page: PAGE,
    worn: false,
};

const WORN: Event = Event::Gone {
    page: PAGE,
    worn: true,
};

const ENDING: Event = Event::Ending { page: PAGE };

const END: Event = Event::End { pc: 0x1_0014 };

fn bad<T>(index: u64, rule: Event) -> Result<T, ReplayFault> {
    Err(ReplayFault::Bad { index, rule })
}

#[test]
fn frames_are_worn_by_births(rt: HostRuntime) -> Result<(), Fail> {
    let alloc = rt.alloc();
    let worn = [GOING, WORN, END];
    // four pages were mapped, with births 0 to 3
    assert_eq!(rt; unmapped(&rt, alloc, 1, &worn)?, Ok((1, 3)));
    assert_eq!(rt; unmapped(&rt, alloc, 4, &worn)?, Ok((1, 3)));
    assert_eq!(rt; unmapped(&rt, alloc, 5, &worn)?, bad(11, WORN));
    // a frame need not be worn
    let gone = [GOING, GONE, END];
    assert_eq!(rt; unmapped(&rt, alloc, 1, &gone)?, Ok((0, 3)));
    assert_eq!(rt; unmapped(&rt, alloc, 5, &gone)?, Ok((0, 3)));
    Ok(())
}

#[test]
fn an_unmap_in_another_order(rt: HostRuntime) -> Result<(), Fail> {
    let alloc = rt.alloc();
    for (events, index, rule) in [
        ([GONE, GOING, END], 10, GONE),
        ([GOING, END, GONE], 11, END),
        // nobody holds the page
        ([GOING, ENDING, END], 11, ENDING),
        ([GOING, GONE, GONE], 12, GONE),
    ] {
        assert_eq!(rt; unmapped(&rt, alloc, 1, &events)?, bad(index, rule));
    }
    Ok(())
}
