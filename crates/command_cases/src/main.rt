//! `command_cases FILE ..`: gives commands of the program on files in memory, for tests. A file of
//! cases has a line for each step; an empty line and one that begins with `#` say nothing. Numbers
//! are decimal, addresses and words hexadecimal; DIGITS are two for each byte.
//!
//! ```text
//! case NAME                             no files and no image from here on
//! line FILE TEXT                        one more line of a file, with its newline
//! lines FILE COUNT TEXT                 so many of them
//! part FILE TEXT                        the text alone
//! bytes FILE DIGITS                     bytes
//! fill FILE COUNT BYTE                  so many times one byte
//! copy FILE OTHER                       what the other file has, alone
//! cut FILE LENGTH                       the file's front alone
//! poke FILE PLACE DIGITS                other bytes at a place of the file
//! replace FILE LINE TEXT                another line in the place of one, counted from 1
//! drop FILE LINE                        the file without that line
//! code ADDRESS WORD ..                  a segment of the image: instructions
//! load RIGHTS ADDRESS MEMORY DIGITS     a segment with the rights r, rw or rx
//! change PLACE DIGITS                   other bytes at a place of the image's file
//! build FILE                            the image, as a file; another image is begun
//! reads NUMBER ..                       the next command's reads that fail, counted from 0
//! puts NUMBER ..                        its puts that fail
//! do WORD ..                            the command of these words; "" is the empty one
//! keep FILE                             what the last command put, as a file
//! show lines FIRST LAST                 of what it put, these lines, counted from 1
//! show from LINE                        the lines from that one on
//! show with WORD ..                     the lines whose second word is one of these
//! show without WORD ..                  those whose second word is none of them
//! show bytes PLACE LENGTH               bytes
//! show size                             how many bytes
//! show against FILE                     whether it is what a file has, or the front of it
//! read FILE                             whether one more read of its shelf fails
//! ```
//!
//! Of each case its line is printed, of each command its words, its exit status and its line, with
//! how many bytes were put where it is not done; and what is shown. A fault of the file is told on
//! the standard error with exit status 1.
#![tactic(auto)]

mod bench;
mod making;
mod showing;
mod words;

use anyhow::{Result, bail};
use bench::Bench;
use making::make;
use showing::{print_answer, read_again, show};
use std::rt::{Env, Files};
use wf_outside::{FsShelf, Shelf, ShelfFault};
use wf_text::{split_line, split_word};
use words::{behind, numbers_of, words_of};

const MOST_BYTES: u64 = 1_048_576;

const USAGE: &str = "usage: command_cases FILE ..";

// The bytes of a file.
fn bytes_of<R: Env + Files + AllocGlobal>(rt: &R, name: &[u8]) -> Result<Vec<u8>> {
    match FsShelf::new(rt, rt.alloc()).read(name, MOST_BYTES) {
        Ok(bytes) => Ok(bytes),
        Err(ShelfFault::Memory) => bail!("memory"),
        Err(ShelfFault::Failed) => bail!("{} can't be read", str::from_utf8(name)?),
        Err(ShelfFault::TooLong { .. }) => bail!("{} is too long", str::from_utf8(name)?),
    }
}

// Prints a line again.
fn print_again<R: Print + AllocGlobal>(rt: &R, line: &[u8]) -> Result<()> {
    rt.write_all(line)?;
    println!(rt)?;
    Ok(())
}

// Follows a line.
fn follow<R: Print + AllocGlobal>(rt: &R, bench: &mut Bench, line: &[u8]) -> Result<()> {
    let alloc = rt.alloc();
    let (step, rest) = split_word(line);
    let rest = behind(rest);
    match str::from_utf8(step)? {
        "case" => {
            *bench = Bench::new(alloc);
            print_again(rt, line)
        }
        "reads" => bench.fail_reads(numbers_of(alloc, rest)?),
        "puts" => bench.fail_puts(numbers_of(alloc, rest)?),
        "do" => {
            print_again(rt, line)?;
            let status = bench.command(&words_of(alloc, rest)?)?;
            print_answer(rt, bench, status)
        }
        "keep" => bench.keep(rest),
        "show" => show(rt, bench, rest),
        "read" => read_again(rt, bench, rest),
        _ => make(alloc, bench, step, rest),
    }
}

// Follows the lines of a file.
fn follow_file<R: Env + Files + Print + AllocGlobal>(rt: &R, name: &[u8]) -> Result<()> {
    let cases = bytes_of(rt, name)?;
    let mut bench = Bench::new(rt.alloc());
    let mut rest = cases.as_slice();
    while !rest.is_empty() {
        let (line, behind) = split_line(rest);
        if !line.is_empty() && !line.starts_with(b"#") {
            follow(rt, &mut bench, line)?;
        }
        rest = behind;
    }
    Ok(())
}

fn main(rt: HostRuntime) -> Result<()> {
    let mut words = std::env::args(&rt)?;
    let Some(first) = words.nth(1) else {
        bail!("{USAGE}");
    };
    follow_file(&rt, first.as_bytes())?;
    for name in words {
        follow_file(&rt, name.as_bytes())?;
    }
    Ok(())
}
