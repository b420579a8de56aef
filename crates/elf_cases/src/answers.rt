//! What is answered for a file.
use anyhow::{Result, bail};
use elf_load::{LoadFault, load};
use elf_read::{Elf, ElfFault, Kind};
use wf_outside::Image;

// What stands in a file, or none where it breaks a rule, which is then printed.
fn elf_of<R: Print + AllocGlobal>(rt: &R, kind: Kind, file: Vec<u8>) -> Result<Option<Elf>> {
    if file.len() > 1_048_576 {
        bail!("the file is too long");
    }
    match Elf::read(rt.alloc(), file, kind) {
        Ok(elf) => Ok(Some(elf)),
        Err(ElfFault::Memory) => bail!("memory"),
        Err(ElfFault::Rule { rule, at }) => {
            println!(rt; "{rule:?} at {at}")?;
            Ok(None)
        }
    }
}

/// That a file is read, or the first rule that it breaks.
pub fn print_elf<R: Print + AllocGlobal>(rt: &R, kind: Kind, file: Vec<u8>) -> Result<()> {
    if elf_of(rt, kind, file)?.is_some() {
        println!(rt; "read")?;
    }
    Ok(())
}

// The words of a page that are not zero.
fn print_page<R: Print>(rt: &R, number: u32, words: &[u64]) -> Result<()> {
    let first = u64::from(number) * 4096;
    for (index, word) in words.iter().enumerate() {
        if *word != 0 {
            let at = first.saturating_add((index as u64).saturating_mul(8));
            println!(rt; "word {at:x} {word:x}")?;
        }
    }
    Ok(())
}

// The names.
fn print_names<R: Print>(rt: &R, image: &Image) -> Result<()> {
    for name in &image.names {
        let text = str::from_utf8(name.name.bytes())?;
        let seen = if name.global { "global" } else { "local" };
        println!(rt; "name {text} {:x} {} {seen}", name.addr, name.size)?;
    }
    Ok(())
}

// All that is loaded.
fn print_image<R: Print>(rt: &R, image: &Image) -> Result<()> {
    println!(rt; "entry {:x}", image.entry)?;
    println!(rt; "end {:x}", image.end)?;
    for page in &image.text {
        println!(rt; "text {:x}", page.number)?;
        print_page(rt, page.number, &page.words)?;
    }
    for page in &image.pages {
        let rights = if page.write { "rw" } else { "r" };
        println!(rt; "page {:x} {rights}", page.number)?;
        print_page(rt, page.number, &page.words)?;
    }
    print_names(rt, image)
}

// What is asked of an image.
fn print_part<R: Print>(rt: &R, what: &[u8], image: &Image) -> Result<()> {
    match str::from_utf8(what)? {
        "load" => {
            println!(rt; "loaded")?;
            Ok(())
        }
        "counts" => {
            println!(rt; "text {}", image.text.len())?;
            println!(rt; "data {}", image.pages.len())?;
            println!(rt; "end {:x}", image.end)?;
            Ok(())
        }
        "image" => print_image(rt, image),
        _ => bail!("nothing is printed by this name"),
    }
}

/// What is asked of what is loaded of an executable, or the first rule that it breaks.
pub fn print_loaded<R: Print + AllocGlobal>(rt: &R, what: &[u8], file: Vec<u8>) -> Result<()> {
    let Some(elf) = elf_of(rt, Kind::Exec, file)? else {
        return Ok(());
    };
    match load(rt.alloc(), &elf) {
        Ok(image) => print_part(rt, what, &image),
        Err(LoadFault::Memory) => bail!("memory"),
        Err(LoadFault::Rule { rule, at }) => {
            println!(rt; "{rule:?} at {at}")?;
            Ok(())
        }
    }
}
