use std::alloc::Global;
use std::str;
use std::test::*;
use wf_flat::{Actor, Entry, Event, WaitFor};
use wf_journal::{JournalFault, entry_text, push_header, push_lines, read_journal};
use wf_outside::Refusal;

const HEAD: &str = "wfpatch run 1\nharts 2\nframes 1024\n";

const MAX: u64 = 0xFFFF_FFFF_FFFF_FFFF;

const MAX_PAGE: u32 = 0xFFFF_FFFF;

// Each event, with the greatest and the least values, and its text.
const EVENTS: [(Event, &str); 41] = [
    (
        Event::Fetch {
            pc: MAX,
            word: 0x93,
        },
        "fetch ffffffffffffffff 00000093",
    ),
    (
        Event::Fetch {
            pc: 0,
            word: 0xFFFF_FFFF,
        },
        "fetch 0 ffffffff",
    ),
    (
        Event::Look {
            va: 0x12000,
            width: 4,
            value: 0,
        },
        "look 12000 4 0",
    ),
    (
        Event::Look {
            va: MAX,
            width: 255,
            value: MAX,
        },
        "look ffffffffffffffff 255 ffffffffffffffff",
    ),
    (Event::Take { page: MAX_PAGE }, "take ffffffff"),
    (
        Event::Put {
            va: 0,
            width: 8,
            value: 10,
        },
        "put 0 8 a",
    ),
    (
        Event::Swap {
            va: 1,
            width: 2,
            old: 3,
            new: 0x40,
        },
        "swap 1 2 3 40",
    ),
    (Event::Miss { va: 0x12000 }, "miss 12000"),
    (Event::End { pc: 0x10 }, "end 10"),
    (Event::Again { page: 18 }, "again 12"),
    (
        Event::Wait {
            on: WaitFor::Page { page: 18 },
        },
        "wait page 12",
    ),
    (
        Event::Wait {
            on: WaitFor::Kernel {
                actor: Actor::Kernel,
            },
        },
        "wait kernel k",
    ),
    (
        Event::Wait {
            on: WaitFor::Kernel {
                actor: Actor::Hart(255),
            },
        },
        "wait kernel h255",
    ),
    (Event::Enter, "enter"),
    (
        Event::Sync {
            generation: 10,
            page: 16,
        },
        "sync 10 10",
    ),
    (
        Event::Trap {
            cause: 15,
            value: 0x10000,
        },
        "trap 15 10000",
    ),
    (Event::Exit { code: MAX }, "exit 18446744073709551615"),
    (Event::Out { byte: 0 }, "out 00"),
    (Event::Out { byte: 0xFE }, "out fe"),
    (Event::Idle, "idle"),
    (
        Event::Map {
            page: 18,
            n: 10,
            write: false,
            patch: None,
        },
        "map 12 10 r z",
    ),
    (
        Event::Map {
            page: 18,
            n: MAX,
            write: true,
            patch: Some(MAX_PAGE),
        },
        "map 12 18446744073709551615 rw p4294967295",
    ),
    (Event::Going { page: 18, n: 10 }, "going 12 10"),
    (Event::Ending { page: 18 }, "ending 12"),
    (
        Event::Gone {
            page: 18,
            worn: false,
        },
        "gone 12",
    ),
    (
        Event::Gone {
            page: 18,
            worn: true,
        },
        "gone 12 worn",
    ),
    (
        Event::Born {
            generation: 1,
            parent: 0,
            patch: None,
        },
        "born 1 0 -",
    ),
    (
        Event::Born {
            generation: 1,
            parent: 0,
            patch: Some(0),
        },
        "born 1 0 p0",
    ),
    (
        Event::Move {
            generation: MAX_PAGE,
        },
        "move 4294967295",
    ),
    (Event::Dead { generation: 0 }, "dead 0"),
    (
        Event::Refused {
            reason: Refusal::Argument,
        },
        "refused argument",
    ),
    (
        Event::Refused {
            reason: Refusal::Overlap { page: 16 },
        },
        "refused overlap 10",
    ),
    (
        Event::Refused {
            reason: Refusal::Absent { page: 16 },
        },
        "refused absent 10",
    ),
    (
        Event::Refused {
            reason: Refusal::Leaving { page: 16 },
        },
        "refused leaving 10",
    ),
    (
        Event::Refused {
            reason: Refusal::NoFrames { need: 55, free: 54 },
        },
        "refused noframes 55 54",
    ),
    (
        Event::Refused {
            reason: Refusal::NoView { generation: MAX },
        },
        "refused noview 18446744073709551615",
    ),
    (
        Event::Refused {
            reason: Refusal::NotEmpty { hart: 255 },
        },
        "refused notempty 255",
    ),
    (
        Event::Refused {
            reason: Refusal::Inside { at: 0x10104 },
        },
        "refused inside 10104",
    ),
    (
        Event::Refused {
            reason: Refusal::Views,
        },
        "refused views 1024",
    ),
    (
        Event::Refused {
            reason: Refusal::Number { n: 99 },
        },
        "refused number 99",
    ),
    (
        Event::Refused {
            reason: Refusal::Lacks { n: 3 },
        },
        "refused lacks 3",
    ),
];

// Lines that are no entry of a run of two harts.
const BROKEN: [&str; 34] = [
    "",
    "h0",
    "h0 ",
    "h0  enter",
    " h0 enter",
    "h0 enter ",
    "h2 enter",
    "h00 enter",
    "H0 enter",
    "k  idle",
    "h0 fetch 10000 93",
    "h0 fetch 10000 000000930",
    "h0 fetch 010000 00000093",
    "h0 fetch 1000G 00000093",
    "h0 look 12000 4",
    "h0 look 12000 256 0",
    "h0 look 12000 04 0",
    "h0 look 1F000 4 0",
    "h0 take 100000000",
    "h0 end 10000000000000000",
    "h0 exit 18446744073709551616",
    "h0 exit 01",
    "h0 out 0",
    "h0 out FE",
    "h0 wait page",
    "h0 wait kernel h256",
    "h0 wait kernel",
    "h0 map 12 10 w z",
    "h0 map 12 10 rw p",
    "h0 gone 12 wor",
    "h0 refused views 1023",
    "h0 refused argument 1",
    "h0 enter\r",
    "h0 enter\0",
];

// The fault of a journal, and none where it is read.
fn fault(alloc: Global, text: &str) -> Option<JournalFault> {
    match read_journal(alloc, text.as_bytes()) {
        Ok(_) => None,
        Err(fault) => Some(fault),
    }
}

#[test]
fn each_event(rt: HostRuntime) -> Result<(), Fail> {
    for (event, text) in EVENTS {
        let entry = Entry {
            actor: Actor::Hart(1),
            event,
        };
        let line = entry_text(rt.alloc(), &entry)?;
        let wanted = format!(in rt.alloc(); "h1 {text}")?;
        assert_eq!(rt; str::from_utf8(line.bytes())?, wanted.as_str());
        let journal = format!(in rt.alloc(); "{HEAD}{wanted}")?;
        let journal = read_journal(rt.alloc(), journal.as_bytes())
            .ok()
            .ok_or("the line is read")?;
        assert_eq!(rt; journal.entries.as_slice(), [entry].as_slice(), "{text}");
    }
    Ok(())
}

#[test]
fn broken_lines(rt: HostRuntime) -> Result<(), Fail> {
    for line in BROKEN {
        let journal = format!(in rt.alloc(); "{HEAD}k idle\n{line}\n")?;
        let wanted = Some(JournalFault::Line { line: 5 });
        assert_eq!(rt; fault(rt.alloc(), &journal), wanted, "{line}");
    }
    Ok(())
}

#[test]
fn first_lines(rt: HostRuntime) {
    for (text, line) in [
        ("", 1),
        ("\n", 1),
        ("wfpatch run 2\n", 1),
        ("wfpatch run 1", 2),
        ("wfpatch run 1\nharts 0\n", 2),
        ("wfpatch run 1\nharts 65\n", 2),
        ("wfpatch run 1\nharts 01\n", 2),
        ("wfpatch run 1\nharts 1\n", 3),
        ("wfpatch run 1\nharts 1\nframes 63\n", 3),
        ("wfpatch run 1\nharts 1\nframes 65537\n", 3),
        ("wfpatch run 1\nharts 1\nframes 64\npatch 1 a\n", 4),
        (
            "wfpatch run 1\nharts 1\nframes 64\npatch 0 a\npatch 0 b\n",
            5,
        ),
        ("wfpatch run 1\nharts 1\nframes 64\nk idle\npatch 0 a\n", 5),
        ("wfpatch run 1\nharts 1\nframes 64\n| view\npatch 0 a\n", 5),
        ("wfpatch run 1\nharts 1\nframes 64\n= x\nk idle\n", 5),
        ("wfpatch run 1\nharts 1\nframes 64\n= x\n| y\n", 5),
        ("wfpatch run 1\nharts 1\nframes 64\n|\n", 4),
        ("wfpatch run 1\nharts 1\nframes 64\n=\n", 4),
    ] {
        assert_eq!(rt;
            fault(rt.alloc(), text),
            Some(JournalFault::Line { line }),
            "{text}"
        );
    }
}

#[test]
fn whole_journals(rt: HostRuntime) -> Result<(), Fail> {
    let text =
        "wfpatch run 1\nharts 64\nframes 65536\npatch 0 a\npatch 1 b/c\nh63 idle\n| regs 0\nk enter\n= x\n= ";
    let journal = read_journal(rt.alloc(), text.as_bytes())
        .ok()
        .ok_or("the journal is read")?;
    assert_eq!(rt; journal.harts, 64);
    assert_eq!(rt; journal.frames, 65536);
    assert_eq!(rt; journal.entries.len(), 2);
    assert_eq!(rt; journal.end.len(), 2);
    assert_eq!(rt; journal.end[0].bytes(), b"= x".as_slice());
    let mut out = Vec::new(rt.alloc());
    push_header(
        &mut out,
        u64::from(journal.harts),
        journal.frames,
        &journal.patches,
    )?;
    push_lines(&mut out, &journal.end)?;
    let wanted = "wfpatch run 1\nharts 64\nframes 65536\npatch 0 a\npatch 1 b/c\n= x\n= \n";
    assert_eq!(rt; str::from_utf8(&out)?, wanted);
    Ok(())
}

// 64 patches are read, and one more is a fault at its line.
#[test]
fn patches(rt: HostRuntime) -> Result<(), Fail> {
    let mut text = format!(in rt.alloc(); "{HEAD}")?;
    for number in 0..65u64 {
        text.push_str(&format!(in rt.alloc(); "patch {number} a\n")?)?;
        let wanted = if number == 64 {
            Some(JournalFault::Line { line: 68 })
        } else {
            None
        };
        assert_eq!(rt; fault(rt.alloc(), &text), wanted);
    }
    Ok(())
}
