//! What requests are refused for at the start of two harts, and what is to do about them: by the
//! table of calls, worked out by hand.
ghost use Rattle.std.specs.Prelude.{[]};
ghost use Rattle.wf_verdict.specs.Verdict.{IsOfRun};

use crate::machines::start;
use std::alloc::Global;
use std::test::Fail;
use wf_flat::Event;
use wf_outside::Refusal;
use wf_verdict::{Request, Todo, done_about, refusal_of};

// What a request is refused for at the start, of a run without patches.
fn refusal(alloc: Global, request: Request) -> Result<Option<Refusal>, Fail>
    requires { IsOfRun [] request }
{
    Ok(refusal_of(alloc, &start(alloc)?, &[], 0x1_0004, request)?)
}

fn maps(alloc: Global, va: u64, pages: u64, right: u64) -> Result<Option<Refusal>, Fail> {
    refusal(alloc, Request::Maps { va, pages, right })
}

fn unmaps(alloc: Global, va: u64, pages: u64) -> Result<Option<Refusal>, Fail> {
    refusal(alloc, Request::Unmaps { va, pages })
}

// At the start of two harts with 64 frames: text in page 10, data in page 11, four pages of a stack
// for each hart, from pages 3E0000C and 3E0002C on, and five nodes: 15 frames. Page 200 needs one
// more node.
#[test]
fn maps_are_refused_by_the_table(rt: HostRuntime) -> Result<(), Fail> {
    for (va, pages, right, refusal) in [
        (0x1_0001, 1, 3, Some(Refusal::Argument)),
        (0x20_0000, 0, 3, Some(Refusal::Argument)),
        (0x20_0000, 257, 3, Some(Refusal::Argument)),
        (0x20_0000, 1, 2, Some(Refusal::Argument)),
        (0x3F_FFFF_F000, 2, 3, Some(Refusal::Argument)),
        (0xF000, 3, 3, Some(Refusal::Overlap { page: 0x10 })),
        (0x1_1000, 1, 1, Some(Refusal::Overlap { page: 0x11 })),
        (0x20_0000, 1, 3, None),
        (0x20_0000, 48, 1, None),
        (
            0x20_0000,
            49,
            1,
            Some(Refusal::NoFrames { need: 50, free: 49 }),
        ),
    ] {
        assert_eq!(rt;
            maps(rt.alloc(), va, pages, right)?,
            refusal,
            "{va:x} {pages} {right}"
        );
    }
    Ok(())
}

#[test]
fn unmaps_are_refused_by_the_table(rt: HostRuntime) -> Result<(), Fail> {
    for (va, pages, refusal) in [
        (0x1_0001, 1, Some(Refusal::Argument)),
        (0x1_0000, 2, Some(Refusal::Absent { page: 0x10 })),
        (0x1_1000, 2, Some(Refusal::Absent { page: 0x12 })),
        (0x1_1000, 1, None),
    ] {
        assert_eq!(rt; unmaps(rt.alloc(), va, pages)?, refusal, "{va:x} {pages}");
    }
    Ok(())
}

#[test]
fn generations_are_refused_by_the_table(rt: HostRuntime) -> Result<(), Fail> {
    let alloc = rt.alloc();
    let absent = Some(Refusal::NoView { generation: 1 });
    assert_eq!(rt; refusal(alloc, Request::Migrates { generation: 0 })?, None);
    assert_eq!(rt;
        refusal(alloc, Request::Migrates { generation: 1 })?,
        absent
    );
    assert_eq!(rt; refusal(alloc, Request::Quiesces)?, None);
    let inside = Some(Refusal::NotEmpty { hart: 0 });
    assert_eq!(rt; refusal(alloc, Request::Deletes { generation: 0 })?, inside);
    assert_eq!(rt; refusal(alloc, Request::Deletes { generation: 1 })?, absent);
    assert_eq!(rt; refusal(alloc, Request::Clones { generation: 0 })?, None);
    assert_eq!(rt; refusal(alloc, Request::TellsGeneration)?, None);
    let number = Some(Refusal::Number { n: 9 });
    assert_eq!(rt; refusal(alloc, Request::NoCall { number: 9 })?, number);
    Ok(())
}

// What is to do about a request at the start, of a run without patches.
fn todo(alloc: Global, request: Request) -> Result<Vec<Todo>, Fail>
    requires { IsOfRun [] request }
{
    Ok(done_about(alloc, &start(alloc)?, &[], 0x1_0004, request)?)
}

// This event is to be made, and no other.
fn exactly(event: Event) -> Todo {
    Todo::Exactly { event }
}

#[test]
fn what_is_to_do(rt: HostRuntime) -> Result<(), Fail> {
    let alloc = rt.alloc();
    let told = todo(alloc, Request::TellsGeneration)?;
    assert_eq!(rt; told.len(), 0);
    let told = todo(alloc, Request::PutsByte { byte: 65 })?;
    assert_eq!(rt;
        told.as_slice(),
        [exactly(Event::Out { byte: 65 })].as_slice()
    );
    let unmap = Request::Unmaps {
        va: 0x1_1000,
        pages: 1,
    };
    let going = exactly(Event::Going { page: 0x11, n: 1 });
    let told = todo(alloc, unmap)?;
    assert_eq!(rt;
        told.as_slice(),
        [going, Todo::Leaves { page: 0x11 }].as_slice()
    );
    Ok(())
}
