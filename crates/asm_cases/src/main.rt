//! `asm_cases FILE ..`: assembles sources, for tests, and prints each line of a file of cases with
//! what its source means. An empty line and one that begins with `#` say nothing.
//!
//! ```text
//! exec WHAT SOURCE            of the executable that the source means; or its first fault
//! object WHAT SOURCE          of the relocatable file
//! put SECTION BEFORE ADDRESS TARGET STATEMENT
//!                             how many bytes a statement takes and which it puts, so many bytes
//!                             behind its section's start, at an address, where the label that it
//!                             names is at another; or that it is out of range
//! ```
//!
//! WHAT is `text`, `data`: the first sixteen bytes of that section, and two dots where there are
//! more; `words`: the words of its instructions, each with its own text; `entry`; `fault`: its fault
//! alone; `names`: its symbols; `relas`: its relocations; or `module`: all of it. In a source `\n`,
//! `\t`, `\r` and `\\` stand for a newline, a tab, a carriage return and a backslash, and `\x` with
//! two digits for a byte. BEFORE is decimal, addresses are hexadecimal. A fault of the file is told
//! on the standard error with exit status 1.
#![tactic(auto)]

mod escapes;
mod modules;
mod statements;

use anyhow::{Result, bail};
use elf_write::Form;
use escapes::unescaped;
use modules::print_source;
use statements::print_statement;
use std::rt::{Env, Files};
use wf_outside::{FsShelf, Shelf, ShelfFault};
use wf_text::{split_line, split_word};

const MOST_BYTES: u64 = 1_048_576;

const USAGE: &str = "usage: asm_cases FILE ..";

// The bytes of a file.
fn bytes_of<R: Env + Files + AllocGlobal>(rt: &R, name: &[u8]) -> Result<Vec<u8>> {
    match FsShelf::new(rt, rt.alloc()).read(name, MOST_BYTES) {
        Ok(bytes) => Ok(bytes),
        Err(ShelfFault::Memory) => bail!("memory"),
        Err(ShelfFault::Failed) => bail!("{} can't be read", str::from_utf8(name)?),
        Err(ShelfFault::TooLong { .. }) => bail!("{} is too long", str::from_utf8(name)?),
    }
}

/// What stands behind the space that ends a word.
pub fn behind(rest: &[u8]) -> &[u8] {
    rest.get(1..).unwrap_or(&[])
}

// A case, printed again with what is asked of it.
fn print_case<R: Print + AllocGlobal>(rt: &R, case: &[u8]) -> Result<()> {
    rt.write_all(case)?;
    println!(rt)?;
    let (kind, rest) = split_word(case);
    let form = match str::from_utf8(kind)? {
        "exec" => Form::Exec,
        "object" => Form::Object,
        "put" => return print_statement(rt, behind(rest)),
        _ => bail!("no case begins with {}", str::from_utf8(kind)?),
    };
    let (what, source) = split_word(behind(rest));
    print_source(rt, form, what, &unescaped(rt.alloc(), behind(source))?)
}

// Prints the cases of a file.
fn print_cases<R: Env + Files + Print + AllocGlobal>(rt: &R, name: &[u8]) -> Result<()> {
    let cases = bytes_of(rt, name)?;
    let mut rest = cases.as_slice();
    while !rest.is_empty() {
        let (line, behind) = split_line(rest);
        if !line.is_empty() && !line.starts_with(b"#") {
            print_case(rt, line)?;
        }
        rest = behind;
    }
    Ok(())
}

fn main(rt: HostRuntime) -> Result<()> {
    let mut words = std::env::args(&rt)?;
    let Some(first) = words.nth(1) else {
        bail!("{USAGE}");
    };
    print_cases(&rt, first.as_bytes())?;
    for name in words {
        print_cases(&rt, name.as_bytes())?;
    }
    Ok(())
}
