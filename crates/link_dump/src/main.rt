//! `link_dump OBJECT IMAGE N=ADDRESS ..`: prints the bytes of sections of a relocatable file at
//! their places, for comparing them with what linkers write. Each word behind the two files gives
//! the section with number N a place, which is hexadecimal. Names that the object does not define
//! are those of the image. A line for each section that has a place has its number, and its bytes
//! as hexadecimal digits; or `group G index I RULE`, the first entry that can't be applied, with
//! the number of its relocation section and its place there. A fault of the words or the files is
//! told on the standard error with exit status 1.
#![tactic(auto)]

ghost use Rattle.std.specs.Prelude.{◌≡◌, length, IsSome, IfOk};
ghost use Rattle.elf_link.specs.Links.{place_of, AreLow};

use anyhow::{Result, bail, ensure};
use elf_link::{LinkFault, are_low, relocate};
use elf_load::{LoadFault, load};
use elf_read::{Elf, ElfFault, Kind};
use elf_syms::Names;
use std::alloc::Global;
use std::rt::Files;
use wf_outside::{FsShelf, Memory, Shelf, ShelfFault};

// `Elf::read` asks for fewer than 2^32 bytes.
const MOST_BYTES: u64 = 0xFFFF_FFFF;

const USAGE: &str = "usage: link_dump OBJECT IMAGE N=ADDRESS ..";

// The file with this name.
fn file<R: Files + AllocGlobal>(rt: &R, name: &str, kind: Kind) -> Result<Elf> {
    let bytes = match FsShelf::new(rt, rt.alloc()).read(name.as_bytes(), MOST_BYTES) {
        Ok(bytes) => bytes,
        Err(ShelfFault::Memory) => bail!("memory"),
        Err(_) => bail!("{name} can't be read"),
    };
    match Elf::read(rt.alloc(), bytes, kind) {
        Ok(elf) => Ok(elf),
        Err(ElfFault::Rule { rule, at }) => bail!("{name}: {rule:?} at {at}"),
        Err(ElfFault::Memory) => bail!("memory"),
    }
}

// The names of the image in the file with this name.
fn names<R: Files + AllocGlobal>(rt: &R, name: &str) -> Result<Names> {
    let image = match load(rt.alloc(), &file(rt, name, Kind::Exec)?) {
        Ok(image) => image,
        Err(LoadFault::Rule { rule, at }) => bail!("{name}: {rule:?} at {at}"),
        Err(LoadFault::Memory) => bail!("memory"),
    };
    match Names::new(rt.alloc(), &image) {
        Ok(names) => Ok(names),
        Err(Memory) => bail!("memory"),
    }
}

// The section with this number gets a place.
fn give_place(places: &mut [Option<u64>], word: &str) -> Result<()> {
    let Some((number, address)) = word.split_once('=') else {
        bail!("{USAGE}");
    };
    let number = number.parse::<usize>()?;
    ensure!(number < places.len(), "there is no section {number}");
    places[number] = Some(u64::from_str_radix(address, 16)?);
    Ok(())
}

// The places of so many sections, by number.
fn places(alloc: Global, count: usize, words: &[String]) -> Result<Vec<Option<u64>>>
    ensures { IfOk result (λ places. length places.items ≡ count) }
{
    let mut places = vec![in alloc; None; count]?;
    for word in words {
        give_place(&mut places, word)?;
    }
    Ok(places)
}

// A line for the section.
fn print_section<R: Print + AllocGlobal>(
    rt: &R,
    object: &Elf,
    section: u32,
    places: &[Option<u64>],
    names: &Names,
) -> Result<()>
    requires all { length places.now ≡ length object.now.sections }
    requires loaded { IsSome (place_of places.now section) }
    requires low { AreLow places.now object.now.sections }
{
    match relocate(rt.alloc(), object, section, places, names) {
        Ok(bytes) => println!(rt; "{section} {}", hex::encode(rt.alloc(), &bytes)?)?,
        Err(LinkFault::Rule { group, index, rule }) => {
            println!(rt; "{section} group {group} index {index} {rule:?}")?
        }
        Err(LinkFault::Memory) => bail!("memory"),
    }
    Ok(())
}

// A line for each section that has a place.
fn print_sections<R: Print + AllocGlobal>(
    rt: &R,
    object: &Elf,
    places: &[Option<u64>],
    names: &Names,
) -> Result<()>
    requires { length places.now ≡ length object.now.sections }
{
    if !are_low(object, places) {
        bail!("a section ends too high");
    }
    for (number, place) in places.iter().enumerate() {
        if place.is_some() {
            print_section(rt, object, u32::try_from(number)?, places, names)?;
        }
    }
    Ok(())
}

fn main(rt: HostRuntime) -> Result<()> {
    let words: Vec<String> = std::env::args(&rt)?.skip(1).collect(rt.alloc())?;
    let [object, image, words @ ..] = words.as_slice() else {
        bail!("{USAGE}");
    };
    let object = file(&rt, object, Kind::Rel)?;
    let names = names(&rt, image)?;
    let places = places(rt.alloc(), object.sections().len(), words)?;
    print_sections(&rt, &object, &places, &names)
}
