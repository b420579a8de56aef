//! `elf_dump FILE`: prints what is loaded of an ELF executable, for comparing it with what other
//! tools say: the entry, the first page behind all, the pages with their rights, the names, and
//! each word that isn't 0 as its address and its eight bytes in the order of addresses. Addresses
//! are hexadecimal. In a name each byte outside 20 to 7e, and the backslash, is `\xNN`. A fault,
//! and other words than one, are told on the standard error with exit status 1.
#![tactic(auto)]

mod escaping;

use anyhow::{Result, bail};
use elf_load::{LoadFault, load};
use elf_read::{Elf, ElfFault, Kind};
use escaping::escape;
use std::alloc::Global;
use std::io;
use std::rt::{Env, Files};
use wf_outside::{FsShelf, Image, Name, PAGE_SIZE, PAGE_WORDS, Shelf, ShelfFault};

// `Elf::read` asks for fewer than 2^32 bytes.
const MOST_BYTES: u64 = 0xFFFF_FFFF;

const USAGE: &str = "usage: elf_dump FILE";

// The file that the command line names.
fn file<R: Env + Files + AllocGlobal>(rt: &R) -> Result<Elf> {
    let mut words = std::env::args(rt)?;
    let Some(name) = words.nth(1) else {
        bail!("{USAGE}");
    };
    if words.next().is_some() {
        bail!("{USAGE}");
    }
    let bytes = match FsShelf::new(rt, rt.alloc()).read(name.as_bytes(), MOST_BYTES) {
        Ok(bytes) => bytes,
        Err(ShelfFault::Memory) => bail!("memory"),
        Err(_) => bail!("the file can't be read"),
    };
    match Elf::read(rt.alloc(), bytes, Kind::Exec) {
        Ok(elf) => Ok(elf),
        Err(ElfFault::Rule { rule, at }) => bail!("{rule:?} at {at}"),
        Err(ElfFault::Memory) => bail!("memory"),
    }
}

// What is loaded of it.
fn image<R: Env + Files + AllocGlobal>(rt: &R) -> Result<Image> {
    match load(rt.alloc(), &file(rt)?) {
        Ok(image) => Ok(image),
        Err(LoadFault::Rule { rule, at }) => bail!("{rule:?} at {at}"),
        Err(LoadFault::Memory) => bail!("memory"),
    }
}

// Where the image begins, where it ends, and its pages.
fn print_pages(rt: &impl Print, image: &Image) -> io::Result<()> {
    println!(rt; "entry {:x}", image.entry)?;
    println!(rt; "end {:x}", image.end)?;
    for page in &image.text {
        println!(rt; "page {:x} text", page.number)?;
    }
    for page in &image.pages {
        let rights = if page.write { "rw" } else { "r" };
        println!(rt; "page {:x} {rights}", page.number)?;
    }
    Ok(())
}

// A line for each name.
fn print_names(rt: &impl Print, alloc: Global, names: &[Name]) -> Result<()> {
    for name in names {
        let binding = if name.global { "global" } else { "local" };
        print!(rt; "name {:x} {} {binding} ", name.addr, name.size)?;
        rt.write_all(&escape(alloc, name.name.bytes())?)?;
        println!(rt; "")?;
    }
    Ok(())
}

// The words of a page that aren't 0.
fn print_words(rt: &impl Print, number: u32, words: &[u64]) -> io::Result<()> {
    for (i, word) in words.iter().take(PAGE_WORDS).enumerate() {
        if *word != 0 {
            let address = PAGE_SIZE * u64::from(number) + 8 * i as u64;
            println!(rt; "{address:x} {:016x}", word.swap_bytes())?;
        }
    }
    Ok(())
}

fn main(rt: HostRuntime) -> Result<()> {
    let image = image(&rt)?;
    print_pages(&rt, &image)?;
    print_names(&rt, rt.alloc(), &image.names)?;
    for page in &image.text {
        print_words(&rt, page.number, &page.words)?;
    }
    for page in &image.pages {
        print_words(&rt, page.number, &page.words)?;
    }
    Ok(())
}
