//! `elf_cases FILE ..`: reads ELF files of which some bytes are changed, for tests. A line of a file
//! of cases is `NAME WHAT CHANGE ..`, with the name of a good file, and is printed again with what
//! is answered. An empty line and one that begins with `#` say nothing.
//!
//! WHAT is `exec` or `object`: what breaks a rule of the executable, or of the relocatable file;
//! `load`: of the loading of the executable; `image`: what is loaded, page by page, with the words
//! that are not zero, and the names; or `counts`: how much is loaded.
//!
//! A change is `PLACE WIDTH VALUE`: so many bytes of a number, the lowest first; or `cut LENGTH`: the
//! front of the file alone. Places, widths and lengths are decimal, values hexadecimal. A fault of
//! the file is told on the standard error with exit status 1.
#![tactic(auto)]

mod answers;
mod changes;

use answers::{print_elf, print_loaded};
use anyhow::{Result, bail};
use changes::changed;
use elf_read::Kind;
use std::rt::{Env, Files};
use wf_outside::{FsShelf, Shelf, ShelfFault};
use wf_text::{split_line, split_word};

const MOST_BYTES: u64 = 1_048_576;

const USAGE: &str = "usage: elf_cases FILE ..";

// The bytes of a file.
fn bytes_of<R: Env + Files + AllocGlobal>(rt: &R, name: &[u8]) -> Result<Vec<u8>> {
    match FsShelf::new(rt, rt.alloc()).read(name, MOST_BYTES) {
        Ok(bytes) => Ok(bytes),
        Err(ShelfFault::Memory) => bail!("memory"),
        Err(ShelfFault::Failed) => bail!("{} can't be read", str::from_utf8(name)?),
        Err(ShelfFault::TooLong { .. }) => bail!("{} is too long", str::from_utf8(name)?),
    }
}

/// What stands behind the space that ends a word.
pub fn behind(rest: &[u8]) -> &[u8] {
    rest.get(1..).unwrap_or(&[])
}

// A case, printed again with what is answered.
fn print_case<R: Env + Files + Print + AllocGlobal>(rt: &R, case: &[u8]) -> Result<()> {
    rt.write_all(case)?;
    println!(rt)?;
    let (name, rest) = split_word(case);
    let (what, rest) = split_word(behind(rest));
    let file = changed(rt.alloc(), bytes_of(rt, name)?, behind(rest))?;
    match str::from_utf8(what)? {
        "exec" => print_elf(rt, Kind::Exec, file),
        "object" => print_elf(rt, Kind::Rel, file),
        _ => print_loaded(rt, what, file),
    }
}

// Prints the cases of a file.
fn print_cases<R: Env + Files + Print + AllocGlobal>(rt: &R, name: &[u8]) -> Result<()> {
    let cases = bytes_of(rt, name)?;
    let mut rest = cases.as_slice();
    while !rest.is_empty() {
        let (line, behind) = split_line(rest);
        if !line.is_empty() && !line.starts_with(b"#") {
            print_case(rt, line)?;
        }
        rest = behind;
    }
    Ok(())
}

fn main(rt: HostRuntime) -> Result<()> {
    let mut words = std::env::args(&rt)?;
    let Some(first) = words.nth(1) else {
        bail!("{USAGE}");
    };
    print_cases(&rt, first.as_bytes())?;
    for name in words {
        print_cases(&rt, name.as_bytes())?;
    }
    Ok(())
}
