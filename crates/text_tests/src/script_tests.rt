use std::alloc::Global;
use std::test::*;
use wf_flat::Actor;
use wf_script::{Command, ScriptFault, read_script};

// Broken scripts, with the number of harts, and the line and column of the fault.
const BROKEN: [(&str, u8, u64, u64); 40] = [
    ("step h1 1", 1, 1, 6),
    ("walk h0 1", 1, 1, 1),
    ("step h0 1000001", 1, 1, 9),
    ("step h0 0", 1, 1, 9),
    ("step h0 007", 1, 1, 9),
    ("step h0 +7", 1, 1, 9),
    ("step h0", 1, 1, 8),
    ("step h0  ", 1, 1, 10),
    ("step", 1, 1, 5),
    ("step h0 1 2", 1, 1, 11),
    ("step  h0  x", 1, 1, 11),
    ("step k 1", 1, 1, 6),
    ("step h00 1", 2, 1, 6),
    ("step h 1", 2, 1, 6),
    ("step H0 1", 2, 1, 6),
    ("step h64 1", 64, 1, 6),
    ("step\th0 1", 1, 1, 1),
    ("step h0 1\r\n", 1, 1, 9),
    ("step h0 1\0", 1, 1, 9),
    ("tick h2 1", 2, 1, 6),
    ("tick kk 1", 2, 1, 6),
    ("tick k 1000001", 2, 1, 8),
    ("run 0", 1, 1, 5),
    ("run", 1, 1, 4),
    ("patch", 1, 1, 6),
    ("patch a\tb", 1, 1, 7),
    ("patch a b", 1, 1, 9),
    ("begin", 1, 1, 6),
    ("begin step", 1, 1, 7),
    ("begin patch", 1, 1, 12),
    ("create 1024", 1, 1, 8),
    ("delete -1", 1, 1, 8),
    ("tables x", 1, 1, 8),
    ("regs k", 1, 1, 6),
    ("mem 12000 1", 1, 1, 5),
    ("mem 0x 1", 1, 1, 5),
    ("mem 0x12004 1", 1, 1, 5),
    ("mem 0x4000000000 1", 1, 1, 5),
    ("mem 0x0 4097", 1, 1, 9),
    ("# none\n\n  \nrun 1\nrun x", 1, 5, 5),
];

// Lines that are read, with their commands, in a run of two harts.
const READ: [(&str, Command); 15] = [
    (
        "step h1 1000000",
        Command::Step {
            hart: 1,
            n: 1_000_000,
        },
    ),
    (
        "  tick   k 1  ",
        Command::Tick {
            actor: Actor::Kernel,
            n: 1,
        },
    ),
    (
        "tick h0 9",
        Command::Tick {
            actor: Actor::Hart(0),
            n: 9,
        },
    ),
    ("run 10", Command::Run { n: 10 }),
    (
        "patch a/b",
        Command::Patch {
            index: 0,
            begin: false,
        },
    ),
    (
        "begin patch ~!",
        Command::Patch {
            index: 0,
            begin: true,
        },
    ),
    (
        "begin  patch #",
        Command::Patch {
            index: 0,
            begin: true,
        },
    ),
    ("create 0", Command::Create { generation: 0 }),
    ("delete 1023", Command::Delete { generation: 1023 }),
    ("tables 7", Command::Tables { generation: 7 }),
    ("regs h1", Command::Regs { hart: 1 }),
    (
        "mem 0x3ffffffff8 4096",
        Command::Mem {
            va: 0x3F_FFFF_FFF8,
            n: 4096,
        },
    ),
    (
        "mem 0x0000000000000000000000Ab8 1",
        Command::Mem { va: 0xAB8, n: 1 },
    ),
    ("mem 0xaB8 1", Command::Mem { va: 0xAB8, n: 1 }),
    ("mem 0x0 1", Command::Mem { va: 0, n: 1 }),
];

// The fault of a script, and none where it is read.
fn fault(alloc: Global, text: &str, harts: u8) -> Option<ScriptFault> {
    match read_script(alloc, text.as_bytes(), harts) {
        Ok(_) => None,
        Err(fault) => Some(fault),
    }
}

#[test]
fn broken_scripts(rt: HostRuntime) {
    for (text, harts, line, column) in BROKEN {
        let wanted = Some(ScriptFault::At { line, column });
        assert_eq!(rt; fault(rt.alloc(), text, harts), wanted, "{text}");
    }
}

#[test]
fn each_command(rt: HostRuntime) -> Result<(), Fail> {
    for (text, command) in READ {
        let script = read_script(rt.alloc(), text.as_bytes(), 2)
            .ok()
            .ok_or("the line is one of a script")?;
        assert_eq!(rt; script.commands.as_slice(), [command].as_slice(), "{text}");
        assert_eq!(rt; script.lines.as_slice(), [1].as_slice(), "{text}");
    }
    Ok(())
}

#[test]
fn lines_and_names(rt: HostRuntime) -> Result<(), Fail> {
    let text = b"# two patches\n\npatch p0\n  # again\n begin patch dir/p1 \nrun 1";
    let script = read_script(rt.alloc(), text, 1)
        .ok()
        .ok_or("the text is a script")?;
    assert_eq!(rt; script.lines.as_slice(), [3, 5, 6].as_slice());
    let commands = [
        Command::Patch {
            index: 0,
            begin: false,
        },
        Command::Patch {
            index: 1,
            begin: true,
        },
        Command::Run { n: 1 },
    ];
    assert_eq!(rt; script.commands.as_slice(), commands.as_slice());
    assert_eq!(rt; script.patches.len(), 2);
    assert_eq!(rt; script.patches[0].bytes(), b"p0".as_slice());
    assert_eq!(rt; script.patches[1].bytes(), b"dir/p1".as_slice());
    Ok(())
}

// Units that reach the limit, and that pass it; a wrong word comes before.
#[test]
fn units(rt: HostRuntime) {
    for (text, number) in [
        ("step h0 1000000\nstep h0 1000000", 2_000_000),
        ("run 1000000\nregs h0\n", 1_000_001),
        ("tables 0\nrun 999001", 1_000_001),
        ("mem 0x0 4096\nrun 995905\n", 1_000_001),
    ] {
        let wanted = Some(ScriptFault::Units { number });
        assert_eq!(rt; fault(rt.alloc(), text, 1), wanted, "{text}");
    }
    for text in [
        "",
        "\n",
        "run 1000000",
        "tables 0\nrun 999000",
        "# x\nrun 999999\npatch a",
    ] {
        assert_eq!(rt; fault(rt.alloc(), text, 1), None, "{text}");
    }
    let wanted = Some(ScriptFault::At { line: 3, column: 1 });
    assert_eq!(rt; fault(rt.alloc(), "run 1000000\nrun 1000000\nx", 1), wanted);
}

// Patches up to the limit, and one more.
#[test]
fn patches(rt: HostRuntime) -> Result<(), Fail> {
    let mut text = Vec::new(rt.alloc());
    for count in 1..=65 {
        text.extend_from_slice(b"patch a\n")?;
        let fault = match read_script(rt.alloc(), &text, 1) {
            Ok(_) => None,
            Err(fault) => Some(fault),
        };
        let wanted = if count == 65 {
            Some(ScriptFault::Patches { number: 65 })
        } else {
            None
        };
        assert_eq!(rt; fault, wanted);
    }
    Ok(())
}
