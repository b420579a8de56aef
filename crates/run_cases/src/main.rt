//! `run_cases FILE`: runs scripts on programs, a line of the file a case: `NAME SCRIPT OPTIONS`. The
//! image is that of the assembler's source `NAME.s`, and the script is the file `SCRIPT`. Of each
//! case the line is printed, then the report, or the line of the status where there is none, and
//! what the report's check puts. Of a case that begins with `brief` the report's listings and final
//! lines of harts are printed alone. A fault of the file is told on the standard error with exit
//! status 1.
#![tactic(auto)]

use anyhow::{Result, bail};
use elf_write::Form;
use std::alloc::Global;
use std::rt::{Env, Files};
use wf_outside::{FsShelf, MemShelf, MemSink, Memory, Shelf, ShelfFault, Text};
use wf_source::fetch_file;
use wf_status::Status;
use wf_text::{split_line, split_word, without_spaces};
use wf_top::top;

const MOST_BYTES: u64 = 1_048_576;

const USAGE: &str = "usage: run_cases FILE";

// The bytes of a file.
fn bytes_of<R: Env + Files + AllocGlobal>(rt: &R, name: &[u8]) -> Result<Vec<u8>> {
    match FsShelf::new(rt, rt.alloc()).read(name, MOST_BYTES) {
        Ok(bytes) => Ok(bytes),
        Err(ShelfFault::Memory) => bail!("memory"),
        Err(ShelfFault::Failed) => bail!("{} can't be read", str::from_utf8(name)?),
        Err(ShelfFault::TooLong { .. }) => bail!("{} is too long", str::from_utf8(name)?),
    }
}

// The bytes of the file that the source of a name means.
fn image_of<R: Env + Files + AllocGlobal>(rt: &R, name: &[u8]) -> Result<Vec<u8>> {
    let mut source = Vec::new(rt.alloc());
    source.extend_from_slice(name)?;
    source.extend_from_slice(b".s")?;
    let mut shelf = FsShelf::new(rt, rt.alloc());
    match fetch_file(rt.alloc(), &mut shelf, &source, Form::Exec) {
        Ok(file) => Ok(file),
        Err(_) => bail!("a source can't be assembled"),
    }
}

fn new_text(alloc: Global, bytes: &[u8]) -> Result<Text> {
    match Text::of(alloc, bytes) {
        Ok(text) => Ok(text),
        Err(Memory) => bail!("memory"),
    }
}

// The words of a command on the files `image` and `other`, with more words behind.
fn words_of(alloc: Global, command: &[u8], more: &[u8]) -> Result<Vec<Text>> {
    let mut words = Vec::new(alloc);
    words.push(new_text(alloc, command)?)?;
    words.push(new_text(alloc, b"image")?)?;
    words.push(new_text(alloc, b"other")?)?;
    let mut rest = without_spaces(more);
    for _ in 0..more.len() {
        if rest.is_empty() {
            break;
        }
        let (word, behind) = split_word(rest);
        words.push(new_text(alloc, word)?)?;
        rest = without_spaces(behind);
    }
    Ok(words)
}

// What a command answers on two files, and what it puts.
fn answer(alloc: Global, words: &[Text], image: &[u8], other: &[u8]) -> Result<(Status, Vec<u8>)> {
    let mut files = Vec::new(alloc);
    files.push((new_text(alloc, b"image")?, image.to_vec(alloc)?))?;
    files.push((new_text(alloc, b"other")?, other.to_vec(alloc)?))?;
    let mut shelf = MemShelf::new(alloc, files, Vec::new(alloc));
    let mut sink = MemSink::new(alloc, Vec::new(alloc));
    let status = top(alloc, words, &mut shelf, &mut sink);
    Ok((status, sink.got().to_vec(alloc)?))
}

// The lines of a report that are listings, or final lines of harts.
fn brief(alloc: Global, report: &[u8]) -> Result<Vec<u8>> {
    let mut out = Vec::new(alloc);
    let mut rest = report;
    while !rest.is_empty() {
        let (line, behind) = split_line(rest);
        if line.starts_with(b"| ") || line.starts_with(b"= hart ") {
            out.extend_from_slice(line)?;
            out.push(b'\n')?;
        }
        rest = behind;
    }
    Ok(out)
}

// A case, printed again with its report and what the report's check puts.
fn print_case<R: Env + Files + Print + AllocGlobal>(rt: &R, case: &[u8]) -> Result<()> {
    let alloc = rt.alloc();
    rt.write_all(case)?;
    println!(rt)?;
    let (first, behind) = split_word(case);
    let is_brief = first == b"brief".as_slice();
    let (name, behind) = if is_brief {
        split_word(without_spaces(behind))
    } else {
        (first, behind)
    };
    let (script, options) = split_word(without_spaces(behind));
    let image = image_of(rt, name)?;
    let words = words_of(alloc, b"run", options)?;
    let (status, report) = answer(alloc, &words, &image, &bytes_of(rt, script)?)?;
    if status != Status::Done {
        println!(rt; "{status}")?;
        return Ok(());
    }
    if is_brief {
        rt.write_all(&brief(alloc, &report)?)?;
    } else {
        rt.write_all(&report)?;
    }
    let (_, checked) = answer(alloc, &words_of(alloc, b"check", b"")?, &image, &report)?;
    rt.write_all(&checked)?;
    Ok(())
}

fn main(rt: HostRuntime) -> Result<()> {
    let mut words = std::env::args(&rt)?;
    let (Some(name), None) = (words.nth(1), words.next()) else {
        bail!("{USAGE}");
    };
    let cases = bytes_of(&rt, name.as_bytes())?;
    let mut rest = cases.as_slice();
    while !rest.is_empty() {
        let (case, behind) = split_line(rest);
        print_case(&rt, case)?;
        rest = behind;
    }
    Ok(())
}
