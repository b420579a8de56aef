//! The literal lines of statuses, and their exit statuses.
use std::test::Fail;
use wf_status::{EntryRule, ImageRule, LimitKind, SourceRule, Status, Unbuilt};

fn unbuilt(what: Unbuilt) -> Status {
    Status::Unbuilt { what }
}

#[test]
fn statuses(rt: HostRuntime) -> Result<(), Fail> {
    let file = Status::Limit {
        what: LimitKind::File,
        number: 67_108_865,
        most: 67_108_864,
    };
    let frames = Status::Limit {
        what: LimitKind::Frames,
        number: 1034,
        most: 1024,
    };
    let cases = [
        (Status::Done, 0, ""),
        (Status::Words, 1, "wfpatch: words"),
        (Status::Shelf, 5, "wfpatch: shelf"),
        (Status::Sink, 6, "wfpatch: sink"),
        (Status::Memory, 7, "wfpatch: memory"),
        (file, 8, "wfpatch: limit file 67108865 of 67108864"),
        (frames, 8, "wfpatch: limit frames 1034 of 1024"),
        (
            unbuilt(Unbuilt::Script { line: 12 }),
            10,
            "wfpatch: unbuilt script line 12",
        ),
        (Status::Journal { line: 12 }, 4, "wfpatch: journal line 12"),
        (
            unbuilt(Unbuilt::Step { pc: 0x1_00AC }),
            10,
            "wfpatch: unbuilt step 100ac",
        ),
    ];
    for (status, code, line) in cases {
        assert_eq!(rt; status.code(), code, "{line}");
        let text = status.line(rt.alloc())?;
        assert_eq!(rt; text.bytes(), line.as_bytes(), "{line}");
    }
    Ok(())
}

#[test]
fn rules_of_sources(rt: HostRuntime) -> Result<(), Fail> {
    for (rule, line) in [
        (SourceRule::Syntax, "wfpatch: source line 12 syntax"),
        (SourceRule::Twice, "wfpatch: source line 12 twice"),
        (SourceRule::Unknown, "wfpatch: source line 12 unknown"),
        (SourceRule::Range, "wfpatch: source line 12 range"),
    ] {
        let status = Status::Source { rule, line: 12 };
        assert_eq!(rt; status.code(), 4, "{line}");
        assert_eq!(rt; status.line(rt.alloc())?.bytes(), line.as_bytes(), "{line}");
    }
    Ok(())
}

#[test]
fn rules_of_images(rt: HostRuntime) -> Result<(), Fail> {
    for (rule, line) in [
        (ImageRule::Short, "wfpatch: image short at 63"),
        (ImageRule::Magic, "wfpatch: image magic at 63"),
        (ImageRule::Class, "wfpatch: image class at 63"),
        (ImageRule::Order, "wfpatch: image order at 63"),
        (ImageRule::Kind, "wfpatch: image kind at 63"),
        (ImageRule::Machine, "wfpatch: image machine at 63"),
        (ImageRule::Flags, "wfpatch: image flags at 63"),
        (ImageRule::Table, "wfpatch: image table at 63"),
        (ImageRule::Range, "wfpatch: image range at 63"),
        (ImageRule::Strings, "wfpatch: image strings at 63"),
        (ImageRule::TlsSegment, "wfpatch: image tlssegment at 63"),
        (ImageRule::Interp, "wfpatch: image interp at 63"),
        (ImageRule::Dynamic, "wfpatch: image dynamic at 63"),
        (ImageRule::WriteAndRun, "wfpatch: image writeandrun at 63"),
        (ImageRule::HighAddress, "wfpatch: image highaddress at 63"),
        (ImageRule::TooLarge, "wfpatch: image toolarge at 63"),
        (ImageRule::SharedPage, "wfpatch: image sharedpage at 63"),
        (ImageRule::NoEntry, "wfpatch: image noentry at 63"),
    ] {
        let status = Status::Image { rule, at: 63 };
        assert_eq!(rt; status.code(), 2, "{line}");
        assert_eq!(rt; status.line(rt.alloc())?.bytes(), line.as_bytes(), "{line}");
    }
    Ok(())
}

#[test]
fn rules_of_entries(rt: HostRuntime) -> Result<(), Fail> {
    for (rule, line) in [
        (EntryRule::Fetch, "wfpatch: illegal entry 12 fetch"),
        (EntryRule::Look, "wfpatch: illegal entry 12 look"),
        (EntryRule::Take, "wfpatch: illegal entry 12 take"),
        (EntryRule::Put, "wfpatch: illegal entry 12 put"),
        (EntryRule::Swap, "wfpatch: illegal entry 12 swap"),
        (EntryRule::Miss, "wfpatch: illegal entry 12 miss"),
        (EntryRule::End, "wfpatch: illegal entry 12 end"),
        (EntryRule::Again, "wfpatch: illegal entry 12 again"),
        (EntryRule::Wait, "wfpatch: illegal entry 12 wait"),
        (EntryRule::Enter, "wfpatch: illegal entry 12 enter"),
        (EntryRule::Sync, "wfpatch: illegal entry 12 sync"),
        (EntryRule::Trap, "wfpatch: illegal entry 12 trap"),
        (EntryRule::Exit, "wfpatch: illegal entry 12 exit"),
        (EntryRule::Out, "wfpatch: illegal entry 12 out"),
        (EntryRule::Idle, "wfpatch: illegal entry 12 idle"),
        (EntryRule::Map, "wfpatch: illegal entry 12 map"),
        (EntryRule::Going, "wfpatch: illegal entry 12 going"),
        (EntryRule::Ending, "wfpatch: illegal entry 12 ending"),
        (EntryRule::Gone, "wfpatch: illegal entry 12 gone"),
        (EntryRule::Born, "wfpatch: illegal entry 12 born"),
        (EntryRule::Move, "wfpatch: illegal entry 12 move"),
        (EntryRule::Dead, "wfpatch: illegal entry 12 dead"),
        (EntryRule::Refused, "wfpatch: illegal entry 12 refused"),
        (EntryRule::Final, "wfpatch: illegal entry 12 final"),
    ] {
        let status = Status::Illegal { index: 12, rule };
        assert_eq!(rt; status.code(), 9, "{line}");
        assert_eq!(rt; status.line(rt.alloc())?.bytes(), line.as_bytes(), "{line}");
    }
    Ok(())
}
