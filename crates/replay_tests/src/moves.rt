//! Generations with a jump, and a hart that moves to one.
ghost use Rattle.std.specs.Prelude.{◌≡◌, ◌<◌, ◌^◌, ◌%◌, IfOk};
ghost use Rattle.wf_sound.specs.Sound.{IsDelta};

use crate::machines::{push_call, start};
use std::alloc::Global;
use std::process::Abort;
use std::test::Fail;
use wf_flat::{Actor, Entry, Event, Flat};
use wf_outside::{Delta, Jump, Memory, Refusal};
use wf_replay::{ReplayFault, replay};

// A move to generation 1: `addi x17, x0, 5`, `addi x10, x0, 1`, `ecall`.
const MOVE: [u32; 3] = [0x0050_0893, 0x0010_0513, 0x0000_0073];

// A patch with one jump.
fn patch(alloc: Global, at: u64) -> Result<Delta, Memory>
    requires even { at % 4 ≡ 0 }
    requires low { at < 2 ^ 38 }
    ensures { IfOk result IsDelta }
{
    let mut jumps = Vec::new(alloc);
    jumps.push(Jump { at, bytes: [0; 8] })?;
    Ok(Delta {
        private: Vec::new(alloc),
        shared: Vec::new(alloc),
        jumps,
    })
}

// The hart's generation and a0.
fn shown(flat: &Flat) -> Option<(u32, u64)> {
    let hart = flat.harts.get(0)?;
    Some((hart.generation, hart.arch.x[10]))
}

// What becomes of the hart, its generation and a0, in a run with a patch whose jump is here.
fn replayed(
    rt: &impl Abort,
    alloc: Global,
    at: u64,
    journal: &[Entry],
) -> Result<Result<Option<(u32, u64)>, ReplayFault>, Fail>
    requires even { at % 4 ≡ 0 }
    requires low { at < 2 ^ 38 }
{
    let mut deltas = Vec::new(alloc);
    deltas.push(patch(alloc, at)?)?;
    let flat = start(alloc, &MOVE, 1, &deltas)?;
    assert_eq!(rt; flat.births, 4);
    assert!(rt; journal.len() < 20);
    match replay(alloc, flat, journal, &deltas) {
        Ok(end) => Ok(Ok(shown(&end))),
        Err(fault) => Ok(Err(fault)),
    }
}

// A birth with the patch.
const BORN: Event = Event::Born {
    generation: 1,
    parent: 0,
    patch: Some(0),
};

// The kernel enters and does this.
fn push_kernel(journal: &mut Vec<Entry>, event: Event) -> Result<(), Memory> {
    let actor = Actor::Kernel;
    journal.push(Entry {
        actor,
        event: Event::Enter,
    })?;
    journal.push(Entry { actor, event })?;
    Ok(())
}

// What becomes of the hart that calls to move to generation 1, which was born with a jump at this
// address, and whose call does this.
fn moved(
    rt: &impl Abort,
    alloc: Global,
    at: u64,
    event: Event,
) -> Result<Result<Option<(u32, u64)>, ReplayFault>, Fail>
    requires even { at % 4 ≡ 0 }
    requires low { at < 2 ^ 38 }
{
    let actor = Actor::Hart(0);
    let mut journal = Vec::new(alloc);
    push_kernel(&mut journal, BORN)?;
    push_call(&mut journal, &MOVE)?;
    journal.push(Entry { actor, event })?;
    let event = Event::End { pc: 0x1_000C };
    journal.push(Entry { actor, event })?;
    replayed(rt, alloc, at, &journal)
}

#[test]
fn a_jump_under_a_hart(rt: HostRuntime) -> Result<(), Fail> {
    let alloc = rt.alloc();
    let inside = Event::Refused {
        reason: Refusal::Inside { at: 0x1_000C },
    };
    let moves = Event::Move { generation: 1 };
    let bad = |rule| Err(ReplayFault::Bad { index: 8, rule });
    // the jump is where the hart calls: the hart would go on in its midst
    let refused = Ok(Some((0, 8_u64.wrapping_neg())));
    assert_eq!(rt; moved(&rt, alloc, 0x1_0008, inside)?, refused);
    assert_eq!(rt; moved(&rt, alloc, 0x1_0008, moves)?, bad(moves));
    // and where the hart goes on
    assert_eq!(rt; moved(&rt, alloc, 0x1_000C, moves)?, Ok(Some((1, 1))));
    assert_eq!(rt; moved(&rt, alloc, 0x1_000C, inside)?, bad(inside));
    Ok(())
}

#[test]
fn what_the_kernel_may_do(rt: HostRuntime) -> Result<(), Fail> {
    let born = |generation, parent, patch| Event::Born {
        generation,
        parent,
        patch,
    };
    let refused = |reason| Event::Refused { reason };
    for (event, may) in [
        (born(1, 0, Some(0)), true),
        (born(2, 0, Some(0)), false),
        (born(1, 1, Some(0)), false),
        (born(1, 0, Some(1)), false),
        // a clone
        (born(1, 0, None), true),
        (refused(Refusal::Lacks { n: 0 }), false),
        // a delete of the generation that the hart is in
        (Event::Dead { generation: 0 }, false),
        (refused(Refusal::NotEmpty { hart: 0 }), true),
        (refused(Refusal::NotEmpty { hart: 1 }), false),
    ] {
        let mut journal = Vec::new(rt.alloc());
        push_kernel(&mut journal, event)?;
        let want = if may {
            Ok(Some((0, 0)))
        } else {
            Err(ReplayFault::Bad {
                index: 1,
                rule: event,
            })
        };
        assert_eq!(rt; replayed(&rt, rt.alloc(), 0x1_0008, &journal)?, want);
    }
    Ok(())
}
