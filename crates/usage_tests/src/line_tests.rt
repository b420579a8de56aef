use elf_write::Form;
use std::alloc::{AllocError, Global};
use std::str;
use std::test::*;
use wf_outside::Text;
use wf_usage::{Command, command_of};

// Words, and what they ask for: the command with its names, and its sizes or its form.
const ASKED: [(&[&str], &str); 44] = [
    (&["run", "a", "b"], "run a b 1 1024"),
    (&["run", "a", "b", "--harts", "64"], "run a b 64 1024"),
    (&["run", "a", "b", "--harts=64"], "run a b 64 1024"),
    (&["run", "--harts=1", "a", "b"], "run a b 1 1024"),
    (&["run", "a", "--harts", "9", "b"], "run a b 9 1024"),
    (&["run", "a", "b", "--frames", "64"], "run a b 1 64"),
    (&["run", "a", "b", "--frames=65536"], "run a b 1 65536"),
    (
        &["run", "--frames", "100", "--harts", "3", "a", "b"],
        "run a b 3 100",
    ),
    (
        &["run", "--harts=3", "a", "--frames=100", "b"],
        "run a b 3 100",
    ),
    (
        &["run", "a", "--frames", "100", "b", "--harts=3"],
        "run a b 3 100",
    ),
    (&["run", "--", "a", "b"], "run a b 1 1024"),
    (&["run", "a", "--", "b"], "run a b 1 1024"),
    (&["run", "a", "b", "--"], "run a b 1 1024"),
    (&["run", "--harts", "2", "--", "a", "b"], "run a b 2 1024"),
    (&["run", "--", "--harts", "2"], "run --harts 2 1 1024"),
    (
        &["run", "--", "--harts=2", "--frames=9"],
        "run --harts=2 --frames=9 1 1024",
    ),
    (&["run", "--", "--", "--"], "run -- -- 1 1024"),
    (&["run", "--", "-a", "--b"], "run -a --b 1 1024"),
    (&["run", "-", "-"], "run - - 1 1024"),
    (&["run", "-", "--harts=2", "b"], "run - b 2 1024"),
    (&["run", "", ""], "run   1 1024"),
    (&["run", "run", "check"], "run run check 1 1024"),
    (&["run", "help", "=2"], "run help =2 1 1024"),
    (&["run", "a-b", "c--d"], "run a-b c--d 1 1024"),
    (
        &["run", "\u{e9}\u{4e00}", "\u{1f600}"],
        "run \u{e9}\u{4e00} \u{1f600} 1 1024",
    ),
    (&["check", "a", "b"], "check a b"),
    (&["check", "-", "b"], "check - b"),
    (&["check", "--", "a", "-b"], "check a -b"),
    (&["check", "a", "--", "--help"], "check a --help"),
    (&["check", "a", "b", "--"], "check a b"),
    (&["asm", "s"], "asm s Exec"),
    (&["asm", "s", "--object"], "asm s Object"),
    (&["asm", "--object", "s"], "asm s Object"),
    (&["asm", "--object", "--", "s"], "asm s Object"),
    (
        &["asm", "--object", "--", "--object"],
        "asm --object Object",
    ),
    (&["asm", "--", "--object"], "asm --object Exec"),
    (&["asm", "-", "--object"], "asm - Object"),
    (&["asm", "--", "-"], "asm - Exec"),
    (&["make", "1"], "make 1"),
    (&["make", "10000"], "make 10000"),
    (&["make", "--", "7"], "make 7"),
    (&["make", "100", "--"], "make 100"),
    (&["run", "make", "1"], "run make 1 1 1024"),
    (&["asm", "make"], "asm make Exec"),
];

// Words of no command.
const FAULTY: [&[&str]; 87] = [
    &[],
    &[""],
    &["run"],
    &["check"],
    &["asm"],
    &["run", "a"],
    &["check", "a"],
    &["run", "a", "b", "c"],
    &["check", "a", "b", "c"],
    &["asm", "a", "b"],
    &["run", "a", "b", ""],
    &["run", "a", "b", "-"],
    &["run", "--"],
    &["run", "a", "--"],
    &["run", "--", "a", "--", "b"],
    &["run", "a", "b", "--", "--harts", "2"],
    &["run", "a", "b", "--", "--harts=2"],
    &["asm", "--", "s", "--object"],
    &["Run", "a", "b"],
    &["runs", "a", "b"],
    &["ru", "a", "b"],
    &[" run", "a", "b"],
    &["assemble", "s"],
    &["makes", "1"],
    &["help", "run"],
    &["--help"],
    &["--harts", "2", "run", "a", "b"],
    &["--", "run", "a", "b"],
    &["run", "a", "b", "--help"],
    &["run", "--help", "a", "b"],
    &["run", "a", "b", "-h"],
    &["run", "a", "b", "--version"],
    &["run", "a", "b", "-V"],
    &["run", "a", "b", "--object"],
    &["check", "a", "b", "--harts", "2"],
    &["check", "a", "b", "--frames=64"],
    &["asm", "s", "--harts=2"],
    &["run", "a", "b", "--hart", "2"],
    &["run", "a", "b", "--hart=2"],
    &["run", "a", "b", "-harts", "2"],
    &["run", "a", "b", "-harts=2"],
    &["run", "a", "b", "---harts=2"],
    &["run", "a", "b", "--HARTS=2"],
    &["run", "a", "b", "--harts =2"],
    &["run", "a", "b", "--=2"],
    &["run", "a", "b", "--harts"],
    &["run", "a", "b", "--harts="],
    &["run", "a", "b", "--harts", ""],
    &["run", "a", "b", "--harts", "--", "2"],
    &["run", "a", "--harts", "--", "b"],
    &["run", "a", "b", "--harts", "-"],
    &["run", "a", "b", "--harts", "-2"],
    &["run", "a", "b", "--harts", "--frames", "64"],
    &["run", "a", "b", "--harts", "2", "--harts", "2"],
    &["run", "a", "b", "--harts=2", "--harts=3"],
    &["run", "--frames", "64", "a", "b", "--frames=65"],
    &["asm", "s", "--object", "--object"],
    &["asm", "s", "--object="],
    &["asm", "s", "--object=true"],
    &["run", "a", "b", "--harts=0"],
    &["run", "a", "b", "--harts=65"],
    &["run", "a", "b", "--harts=257"],
    &["run", "a", "b", "--harts=02"],
    &["run", "a", "b", "--harts=+2"],
    &["run", "a", "b", "--harts=-2"],
    &["run", "a", "b", "--harts=2.0"],
    &["run", "a", "b", "--harts= 2"],
    &["run", "a", "b", "--harts=0x2"],
    &["run", "a", "b", "--harts=2=2"],
    &["run", "a", "b", "--frames=63"],
    &["run", "a", "b", "--frames=65537"],
    &["run", "a", "b", "--frames=18446744073709552640"],
    &["run", "a", "b", "--frames", "one"],
    &["make"],
    &["make", ""],
    &["make", "0"],
    &["make", "007"],
    &["make", "10001"],
    &["make", "18446744073709551617"],
    &["make", "+1"],
    &["make", "-1"],
    &["make", "--", "-1"],
    &["make", "1", "1"],
    &["make", "--", "1", "--"],
    &["make", "1", "--harts", "1"],
    &["make", "1", "--frames=1024"],
    &["make", "--help"],
];

// Words that are not UTF-8 at one place.
const RAW: [&[&[u8]]; 5] = [
    &[b"run", b"a", b"\xff"],
    &[b"\xff", b"a", b"b"],
    &[b"run", b"a", b"b", b"--harts", b"\xc3"],
    &[b"run", b"--", b"-\x80", b"b"],
    &[b"check", b"a", b"\xed\xa0\x80"],
];

fn text(name: &Text) -> &str {
    str::from_utf8(name.bytes()).unwrap_or("?")
}

// A command, in one line.
fn line(alloc: Global, command: &Command) -> Result<String, AllocError> {
    match command {
        Command::Run {
            image,
            script,
            sizes,
        } => {
            let (image, script) = (text(image), text(script));
            let (harts, frames) = (sizes.harts, sizes.frames);
            format!(in alloc; "run {image} {script} {harts} {frames}")
        }
        Command::Check { image, journal } => {
            let (image, journal) = (text(image), text(journal));
            format!(in alloc; "check {image} {journal}")
        }
        Command::Assemble { source, form } => {
            let source = text(source);
            match form {
                Form::Exec => format!(in alloc; "asm {source} Exec"),
                Form::Object => format!(in alloc; "asm {source} Object"),
            }
        }
        Command::Make { functions } => format!(in alloc; "make {functions}"),
    }
}

fn texts(alloc: Global, words: &[&str]) -> Result<Vec<Text>, Fail> {
    let mut texts = Vec::new(alloc);
    for word in words {
        texts.push(Text::of(alloc, word.as_bytes())?)?;
    }
    Ok(texts)
}

#[test]
fn words_of_commands(rt: HostRuntime) -> Result<(), Fail> {
    let alloc = rt.alloc();
    for (words, wanted) in ASKED {
        let words = texts(alloc, words)?;
        let command = command_of(alloc, &words)?.ok_or("a command")?;
        assert_eq!(rt; line(alloc, &command)?.as_str(), wanted);
    }
    Ok(())
}

#[test]
fn words_of_no_command(rt: HostRuntime) -> Result<(), Fail> {
    let alloc = rt.alloc();
    for words in FAULTY {
        let faulty = texts(alloc, words)?;
        assert!(rt; command_of(alloc, &faulty)?.is_none());
    }
    for words in RAW {
        let mut raw = Vec::new(alloc);
        for word in words {
            raw.push(Text::of(alloc, word)?)?;
        }
        assert!(rt; command_of(alloc, &raw)?.is_none());
    }
    Ok(())
}
