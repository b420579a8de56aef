//! `journal_dump count FILE`: how many patches, entries and final lines a journal has.
//! `journal_dump print FILE`: what is read of it, printed again: its first lines, its entries and
//! its final lines, so all of it but listings. A fault, and other words, are told on the standard
//! error with exit status 1.
#![tactic(auto)]

ghost use Rattle.std.specs.Prelude.{◌≡◌, IfOk};
ghost use Rattle.journal_dump.specs.Texts.{journal_text};

use anyhow::{Result, bail};
use std::alloc::Global;
use std::rt::{Env, Files};
use wf_journal::{Journal, JournalFault, push_entries, push_header, push_lines, read_journal};
use wf_outside::{FsShelf, Memory, Shelf, ShelfFault};

const MOST_BYTES: u64 = 268_435_456;

const USAGE: &str = "usage: journal_dump count|print FILE";

// The bytes of a file.
fn bytes_of<R: Env + Files + AllocGlobal>(rt: &R, name: &[u8]) -> Result<Vec<u8>> {
    match FsShelf::new(rt, rt.alloc()).read(name, MOST_BYTES) {
        Ok(bytes) => Ok(bytes),
        Err(ShelfFault::Memory) => bail!("memory"),
        Err(_) => bail!("the file can't be read"),
    }
}

// The journal in a file.
fn journal_in<R: Env + Files + AllocGlobal>(rt: &R, name: &[u8]) -> Result<Journal> {
    match read_journal(rt.alloc(), &bytes_of(rt, name)?) {
        Ok(journal) => Ok(journal),
        Err(JournalFault::Line { line }) => bail!("line {line}"),
        Err(JournalFault::Memory) => bail!("memory"),
    }
}

// The text of a journal without its listings.
fn journal_text(alloc: Global, journal: &Journal) -> Result<Vec<u8>, Memory>
    ensures { IfOk result (λ text. text.items ≡ journal_text journal.now) }
{
    let mut out = Vec::new(alloc);
    push_header(
        &mut out,
        u64::from(journal.harts),
        journal.frames,
        &journal.patches,
    )?;
    push_entries(&mut out, &journal.entries)?;
    push_lines(&mut out, &journal.end)?;
    Ok(out)
}

// The counts of a journal's parts.
fn print_counts(rt: &impl Print, journal: &Journal) -> Result<()> {
    println!(rt; "patches {}", journal.patches.len())?;
    println!(rt; "entries {}", journal.entries.len())?;
    println!(rt; "final lines {}", journal.end.len())?;
    Ok(())
}

// A journal, printed again.
fn print_journal(rt: &impl Print, alloc: Global, journal: &Journal) -> Result<()> {
    match journal_text(alloc, journal) {
        Ok(text) => Ok(rt.write_all(&text)?),
        Err(Memory) => bail!("memory"),
    }
}

fn main(rt: HostRuntime) -> Result<()> {
    let mut words = std::env::args(&rt)?;
    let (Some(what), Some(name), None) = (words.nth(1), words.next(), words.next()) else {
        bail!("{USAGE}");
    };
    if what.as_str() == "count" {
        print_counts(&rt, &journal_in(&rt, name.as_bytes())?)
    } else if what.as_str() == "print" {
        print_journal(&rt, rt.alloc(), &journal_in(&rt, name.as_bytes())?)
    } else {
        bail!("{USAGE}");
    }
}
