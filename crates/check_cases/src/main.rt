//! `check_cases FILE [NAMED]..`: checks journals of which one line is changed, a line of the file a
//! case: `NAME keep`, or `NAME PLACE CHANGE` with a place counted from 0 behind the first three
//! lines, those of patches and of entries, and the change `drop`, `twice`, `exchange` (with the
//! next) or `put LINE`. The image is that of the assembler's source `NAME.s`, and the journal is
//! `NAME.txt`; it may name the files of the further words as patches. Of these `X.o` is the object
//! that the source `X.s` means. Each case is printed again with what its check answers. A fault of
//! the files is told on the standard error with exit status 1.
#![tactic(auto)]

mod changing;

use anyhow::{Result, bail};
use changing::{change_named, joined, lines_of, make};
use elf_write::Form;
use std::alloc::Global;
use std::rt::{Env, Files};
use wf_check::fetch_checked;
use wf_outside::{FsShelf, MemShelf, Memory, Shelf, ShelfFault, Text};
use wf_source::fetch_file;
use wf_status::Status;
use wf_text::{decimal_of, split_line, split_word, without_spaces};

const MOST_BYTES: u64 = 1_048_576;

// The lines of a journal before its patches and entries.
const FIRST_LINES: usize = 3;

const USAGE: &str = "usage: check_cases FILE [NAMED]..";

// The bytes of a file.
fn bytes_of<R: Env + Files + AllocGlobal>(rt: &R, name: &[u8]) -> Result<Vec<u8>> {
    match FsShelf::new(rt, rt.alloc()).read(name, MOST_BYTES) {
        Ok(bytes) => Ok(bytes),
        Err(ShelfFault::Memory) => bail!("memory"),
        Err(ShelfFault::Failed) => bail!("{} can't be read", str::from_utf8(name)?),
        Err(ShelfFault::TooLong { .. }) => bail!("{} is too long", str::from_utf8(name)?),
    }
}

// The bytes of the file of this form that the source of a name means.
fn assembled<R: Env + Files + AllocGlobal>(rt: &R, name: &[u8], form: Form) -> Result<Vec<u8>> {
    let mut source = Vec::new(rt.alloc());
    source.extend_from_slice(name)?;
    source.extend_from_slice(b".s")?;
    let mut shelf = FsShelf::new(rt, rt.alloc());
    match fetch_file(rt.alloc(), &mut shelf, &source, form) {
        Ok(file) => Ok(file),
        Err(_) => bail!("a source can't be assembled"),
    }
}

// A file of a shelf in memory.
fn file(alloc: Global, name: &[u8], bytes: Vec<u8>) -> Result<(Text, Vec<u8>)> {
    match Text::of(alloc, name) {
        Ok(name) => Ok((name, bytes)),
        Err(Memory) => bail!("memory"),
    }
}

// A file that journals may name: an object is assembled, and any other is read.
fn named_file<R: Env + Files + AllocGlobal>(rt: &R, name: &str) -> Result<(Text, Vec<u8>)> {
    let bytes = match name.strip_suffix(".o") {
        Some(source) => assembled(rt, source.as_bytes(), Form::Object)?,
        None => bytes_of(rt, name.as_bytes())?,
    };
    file(rt.alloc(), name.as_bytes(), bytes)
}

// The lines of the journal of a name.
fn journal_of<R: Env + Files + AllocGlobal>(rt: &R, name: &[u8]) -> Result<Vec<Text>> {
    let mut file = Vec::new(rt.alloc());
    file.extend_from_slice(name)?;
    file.extend_from_slice(b".txt")?;
    match lines_of(rt.alloc(), &bytes_of(rt, &file)?) {
        Ok(lines) => Ok(lines),
        Err(Memory) => bail!("memory"),
    }
}

// Makes the change of a case: the words behind the name.
fn change(alloc: Global, lines: &mut Vec<Text>, words: &[u8]) -> Result<()> {
    let (place, rest) = split_word(without_spaces(words));
    if place == b"keep".as_slice() {
        return Ok(());
    }
    let (name, rest) = split_word(without_spaces(rest));
    let (Some(place), Some(change)) = (decimal_of(place, 100_000), change_named(name)) else {
        bail!("a case has no change");
    };
    match make(
        alloc,
        lines,
        FIRST_LINES + place as usize,
        change,
        without_spaces(rest),
    ) {
        Ok(()) => Ok(()),
        Err(Memory) => bail!("memory"),
    }
}

// What the check of a journal against an image answers, where these further files are there.
fn check(
    alloc: Global,
    image: Vec<u8>,
    journal: Vec<u8>,
    named: &[(Text, Vec<u8>)],
) -> Result<Result<u64, Status>> {
    let mut files = Vec::new(alloc);
    files.push(file(alloc, b"image", image)?)?;
    files.push(file(alloc, b"journal", journal)?)?;
    for (name, bytes) in named {
        files.push(file(alloc, name.bytes(), bytes.to_vec(alloc)?)?)?;
    }
    let mut shelf = MemShelf::new(alloc, files, Vec::new(alloc));
    Ok(fetch_checked(alloc, &mut shelf, b"image", b"journal"))
}

// A case, printed again with what is answered.
fn print_case<R: Env + Files + Print + AllocGlobal>(
    rt: &R,
    case: &[u8],
    named: &[(Text, Vec<u8>)],
) -> Result<()> {
    let (name, words) = split_word(case);
    let mut lines = journal_of(rt, name)?;
    change(rt.alloc(), &mut lines, words)?;
    let image = assembled(rt, name, Form::Exec)?;
    let answer = check(rt.alloc(), image, joined(rt.alloc(), &lines)?, named)?;
    rt.write_all(case)?;
    match answer {
        Ok(count) => println!(rt; ": ok {count}")?,
        Err(status) => println!(rt; ": {status}")?,
    }
    Ok(())
}

fn main(rt: HostRuntime) -> Result<()> {
    let mut words = std::env::args(&rt)?;
    let Some(name) = words.nth(1) else {
        bail!("{USAGE}");
    };
    let mut named = Vec::new(rt.alloc());
    for word in words {
        named.push(named_file(&rt, &word)?)?;
    }
    let cases = bytes_of(&rt, name.as_bytes())?;
    let mut rest = cases.as_slice();
    while !rest.is_empty() {
        let (case, behind) = split_line(rest);
        print_case(&rt, case, &named)?;
        rest = behind;
    }
    Ok(())
}
