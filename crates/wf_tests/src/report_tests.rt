//! Reports whose every byte was written by hand.
use crate::images::small_image;
use std::alloc::Global;
use std::test::Fail;
use wf_flat::{Actor, Entry, Event, Flat, FlatPage, Gen, Life, Stage, WaitFor, boot};
use wf_outside::{Limits, Refusal};
use wf_report::report;

// The state of one hart at its start.
fn booted(alloc: Global) -> Result<Flat, Fail> {
    let limits = Limits {
        frames: 1024,
        last_writes: 1000,
        last_birth: 1000,
    };
    Ok(boot(alloc, &small_image(alloc, &[])?, 1, limits)?)
}

// The first page was written twice, may not be written now, and is held still while it leaves.
fn hold(page: &mut FlatPage) {
    page.write = false;
    page.stage = Stage::Ending;
    page.holder = Some(3);
    page.writes = 2;
    if page.words.len() == 512 {
        page.words[1] = 0xab;
        page.words[511] = 0xFFFF_FFFF_FFFF_FFFF;
    }
}

// A generation that was deleted.
fn deleted(alloc: Global) -> Gen {
    Gen {
        number: 2,
        parent: Some(1),
        text: Vec::new(alloc),
        jumps: Vec::new(alloc),
        patches: 2,
        reach: Vec::new(alloc),
        live: false,
    }
}

fn by_hart(event: Event) -> Entry {
    Entry {
        actor: Actor::Hart(12),
        event,
    }
}

fn by_kernel(event: Event) -> Entry {
    Entry {
        actor: Actor::Kernel,
        event,
    }
}

fn refused(reason: Refusal) -> Entry {
    by_kernel(Event::Refused { reason })
}

// The report of the empty script.
const START: &str = "wfpatch run 1
harts 1
frames 1024
= hart 0 gen 0 pc 10000 running
= regs 0 0 3e00010000 0 0 0 0 0 0 0 0 0 0 0 0 0 0 0 0 0 0 0 0 0 0 0 0 0 0 0 0 0
= gen 0 parent - live patches 0
= page 3e0000c rw here writes 0
= page 3e0000d rw here writes 0
= page 3e0000e rw here writes 0
= page 3e0000f rw here writes 0
";

#[test]
fn reports_a_start(rt: HostRuntime) -> Result<(), Fail> {
    let flat = booted(rt.alloc())?;
    let bytes = report(rt.alloc(), &[], &[], &[], &flat)?;
    assert_eq!(rt; str::from_utf8(&bytes)?, START);
    Ok(())
}

#[test]
fn reports_an_end(rt: HostRuntime) -> Result<(), Fail> {
    let mut flat = booted(rt.alloc())?;
    assert!(rt; flat.pages.len() == 4);
    hold(&mut flat.pages[0]);
    flat.pages[1].stage = Stage::Going;
    flat.pages[2].stage = Stage::Ending;
    assert!(rt; flat.harts.len() == 1);
    flat.harts[0].life = Life::Trapped {
        cause: 13,
        value: 0xF0,
    };
    flat.gens.push(deleted(rt.alloc()))?;
    let bytes = report(rt.alloc(), &[], &[], &[], &flat)?;
    let want = "wfpatch run 1
harts 1
frames 1024
= hart 0 gen 0 pc 10000 trap 13 f0
= regs 0 0 3e00010000 0 0 0 0 0 0 0 0 0 0 0 0 0 0 0 0 0 0 0 0 0 0 0 0 0 0 0 0 0
= gen 0 parent - live patches 0
= gen 2 parent 1 dead patches 2
= page 3e0000c r ending h3 writes 2
= word 3e0000c008 ab
= word 3e0000cff8 ffffffffffffffff
= page 3e0000d rw going writes 0
= page 3e0000e rw ending - writes 0
= page 3e0000f rw here writes 0
";
    assert_eq!(rt; str::from_utf8(&bytes)?, want);
    Ok(())
}

#[test]
fn reports_tries(rt: HostRuntime) -> Result<(), Fail> {
    let journal = [
        by_hart(Event::Fetch {
            pc: 0x10004,
            word: 0x13,
        }),
        by_hart(Event::Look {
            va: 0x3E_0000_C000,
            width: 8,
            value: 0xAB,
        }),
        by_hart(Event::Take { page: 0x3E0_000C }),
        by_hart(Event::Put {
            va: 0x3E_0000_C000,
            width: 1,
            value: 0,
        }),
        by_hart(Event::Swap {
            va: 0x3E_0000_C000,
            width: 4,
            old: 10,
            new: 17,
        }),
        by_hart(Event::Miss { va: 0x3E_0000_C000 }),
        by_hart(Event::End { pc: 0x10008 }),
        by_hart(Event::Again { page: 0x1A }),
        by_hart(Event::Wait {
            on: WaitFor::Page { page: 0x1A },
        }),
        by_hart(Event::Wait {
            on: WaitFor::Kernel {
                actor: Actor::Kernel,
            },
        }),
        by_hart(Event::Wait {
            on: WaitFor::Kernel {
                actor: Actor::Hart(63),
            },
        }),
        by_hart(Event::Trap {
            cause: 15,
            value: 0x10,
        }),
        by_hart(Event::Exit {
            code: 18446744073709551615,
        }),
        by_hart(Event::Out { byte: 10 }),
    ];
    let bytes = report(rt.alloc(), &[], &journal, &[], &booted(rt.alloc())?)?;
    let want = "wfpatch run 1
harts 1
frames 1024
h12 fetch 10004 00000013
h12 look 3e0000c000 8 ab
h12 take 3e0000c
h12 put 3e0000c000 1 0
h12 swap 3e0000c000 4 a 11
h12 miss 3e0000c000
h12 end 10008
h12 again 1a
h12 wait page 1a
h12 wait kernel k
h12 wait kernel h63
h12 trap 15 10
h12 exit 18446744073709551615
h12 out 0a
= hart 0 gen 0 pc 10000 running
";
    assert!(rt; str::from_utf8(&bytes)?.starts_with(want));
    Ok(())
}

#[test]
fn reports_calls(rt: HostRuntime) -> Result<(), Fail> {
    let journal = [
        by_kernel(Event::Enter),
        by_kernel(Event::Sync {
            generation: 10,
            page: 0x1A,
        }),
        by_kernel(Event::Idle),
        by_kernel(Event::Map {
            page: 0x1A,
            n: 10,
            write: true,
            patch: None,
        }),
        by_kernel(Event::Map {
            page: 0x1A,
            n: 10,
            write: false,
            patch: Some(10),
        }),
        by_kernel(Event::Going { page: 0x1A, n: 10 }),
        by_kernel(Event::Ending { page: 0x1A }),
        by_kernel(Event::Gone {
            page: 0x1A,
            worn: false,
        }),
        by_kernel(Event::Gone {
            page: 0x1A,
            worn: true,
        }),
        by_kernel(Event::Born {
            generation: 11,
            parent: 10,
            patch: Some(12),
        }),
        by_kernel(Event::Born {
            generation: 11,
            parent: 10,
            patch: None,
        }),
        by_kernel(Event::Move { generation: 11 }),
        by_kernel(Event::Dead { generation: 11 }),
    ];
    let bytes = report(rt.alloc(), &[], &journal, &[], &booted(rt.alloc())?)?;
    let want = "wfpatch run 1
harts 1
frames 1024
k enter
k sync 10 1a
k idle
k map 1a 10 rw z
k map 1a 10 r p10
k going 1a 10
k ending 1a
k gone 1a
k gone 1a worn
k born 11 10 p12
k born 11 10 -
k move 11
k dead 11
= hart 0 gen 0 pc 10000 running
";
    assert!(rt; str::from_utf8(&bytes)?.starts_with(want));
    Ok(())
}

#[test]
fn reports_refusals(rt: HostRuntime) -> Result<(), Fail> {
    let journal = [
        refused(Refusal::Argument),
        refused(Refusal::Overlap { page: 0x1A }),
        refused(Refusal::Absent { page: 0x1A }),
        refused(Refusal::Leaving { page: 0x1A }),
        refused(Refusal::NoFrames { need: 12, free: 10 }),
        refused(Refusal::NoView { generation: 10 }),
        refused(Refusal::NotEmpty { hart: 10 }),
        refused(Refusal::Inside { at: 0x1A0 }),
        refused(Refusal::Views),
        refused(Refusal::Number { n: 10 }),
        refused(Refusal::Lacks { n: 10 }),
    ];
    let bytes = report(rt.alloc(), &[], &journal, &[], &booted(rt.alloc())?)?;
    let want = "wfpatch run 1
harts 1
frames 1024
k refused argument
k refused overlap 1a
k refused absent 1a
k refused leaving 1a
k refused noframes 12 10
k refused noview 10
k refused notempty 10
k refused inside 1a0
k refused views 1024
k refused number 10
k refused lacks 10
= hart 0 gen 0 pc 10000 running
";
    assert!(rt; str::from_utf8(&bytes)?.starts_with(want));
    Ok(())
}
