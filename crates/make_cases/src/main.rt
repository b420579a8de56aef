//! `make_cases COUNT WORD ..`: makes the files of a program of COUNT functions, puts them on a shelf
//! in memory, runs its script and checks the report; then gives `make WORD` for each word, on an
//! empty shelf. Printed are the names of the files, what the check puts, and of each `make` its
//! word with what is put, or with the line of its status. A fault of the words is
//! told on the standard error with exit status 1.
#![tactic(auto)]

use anyhow::{Result, bail};
use std::alloc::Global;
use std::rt::Env;
use wf_gen::make_files;
use wf_outside::{MemShelf, MemSink, Memory, Text};
use wf_status::Status;
use wf_top::top;

const USAGE: &str = "usage: make_cases COUNT WORD ..";

const MOST_FUNCTIONS: u64 = 10_000;

// A file: its name, and its bytes.
type File = (Text, Vec<u8>);

fn new_text(alloc: Global, word: &str) -> Result<Text> {
    match Text::of(alloc, word.as_bytes()) {
        Ok(text) => Ok(text),
        Err(Memory) => bail!("memory"),
    }
}

// What the command of these words answers on files, and what it puts.
fn answer(alloc: Global, words: &[&str], files: Vec<File>) -> Result<(Status, Vec<u8>)> {
    let mut texts = Vec::new(alloc);
    for word in words {
        texts.push(new_text(alloc, word)?)?;
    }
    let mut shelf = MemShelf::new(alloc, files, Vec::new(alloc));
    let mut sink = MemSink::new(alloc, Vec::new(alloc));
    let status = top(alloc, &texts, &mut shelf, &mut sink);
    Ok((status, sink.got().to_vec(alloc)?))
}

// The files of a program of so many functions.
fn files_of(alloc: Global, functions: u64) -> Result<Vec<File>> {
    if functions > MOST_FUNCTIONS {
        bail!("{USAGE}");
    }
    match make_files(alloc, functions) {
        Ok(files) => Ok(files),
        Err(_) => bail!("the files can't be made"),
    }
}

// Prints an answer: what was put, or the line of the status.
fn print_answer<R: Print + AllocGlobal>(rt: &R, status: Status, put: &[u8]) -> Result<()> {
    if status == Status::Done {
        rt.write_all(put)?;
    } else {
        println!(rt; "{status}")?;
    }
    Ok(())
}

// Prints the files of a program of so many functions, and how the check of its report answers.
fn print_files<R: Print + AllocGlobal>(rt: &R, functions: u64) -> Result<()> {
    let alloc = rt.alloc();
    let mut files = files_of(alloc, functions)?;
    for file in &files {
        let name = str::from_utf8(file.0.bytes())?;
        println!(rt; "{name}")?;
    }
    let again = files_of(alloc, functions)?;
    let (status, report) = answer(alloc, &["run", "prog.elf", "steps.txt"], again)?;
    if status != Status::Done {
        println!(rt; "{status}")?;
        return Ok(());
    }
    files.push((new_text(alloc, "report.txt")?, report))?;
    let (status, put) = answer(alloc, &["check", "prog.elf", "report.txt"], files)?;
    print_answer(rt, status, &put)
}

fn main(rt: HostRuntime) -> Result<()> {
    let mut words = std::env::args(&rt)?;
    let Some(count) = words.nth(1) else {
        bail!("{USAGE}");
    };
    print_files(&rt, count.parse()?)?;
    for word in words {
        print!(&rt; "make {word}: ")?;
        let (status, put) = answer(rt.alloc(), &["make", &word], Vec::new(rt.alloc()))?;
        print_answer(&rt, status, &put)?;
    }
    Ok(())
}
