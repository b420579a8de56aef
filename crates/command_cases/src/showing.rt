//! What is printed of a command.
use crate::bench::Bench;
use crate::words::{first_number, first_word, number_of, words_of};
use anyhow::{Result, bail};
use wf_outside::{Shelf, Text};
use wf_status::Status;
use wf_text::{split_line, split_word, without_spaces};

/// The exit status of a command and its line, and how many bytes were put where it is not done.
pub fn print_answer<R: Print>(rt: &R, bench: &Bench, status: Status) -> Result<()> {
    if status == Status::Done {
        println!(rt; "0")?;
        return Ok(());
    }
    println!(rt; "{} {status}", status.code())?;
    println!(rt; "put {} bytes", bench.put.len())?;
    Ok(())
}

// The lines with these numbers, counted from 1.
fn print_lines<R: Print>(rt: &R, bytes: &[u8], first: u64, last: u64) -> Result<()> {
    let mut rest = bytes;
    let mut number = 0u64;
    while !rest.is_empty() {
        let (line, behind) = split_line(rest);
        number = number.saturating_add(1);
        if first <= number && number <= last {
            rt.write_all(line)?;
            println!(rt)?;
        }
        rest = behind;
    }
    Ok(())
}

// What a line of a report is about: its second word.
fn subject(line: &[u8]) -> &[u8] {
    let (_, behind) = split_word(line);
    let (word, _) = split_word(without_spaces(behind));
    word
}

// The lines that are about one of these words, or those that are about none of them.
fn print_about<R: Print>(rt: &R, bytes: &[u8], words: &[Text], wanted: bool) -> Result<()> {
    let mut rest = bytes;
    while !rest.is_empty() {
        let (line, behind) = split_line(rest);
        let about = subject(line);
        if words.iter().any(|word| word.bytes() == about) == wanted {
            rt.write_all(line)?;
            println!(rt)?;
        }
        rest = behind;
    }
    Ok(())
}

// So many bytes from a place on, in hexadecimal digits.
fn print_bytes<R: Print + AllocGlobal>(
    rt: &R,
    bytes: &[u8],
    place: u64,
    length: u64,
) -> Result<()> {
    let (place, length) = (usize::try_from(place)?, usize::try_from(length)?);
    let Some(part) = bytes.get(place..).and_then(|rest| rest.get(..length)) else {
        bail!("fewer bytes were put");
    };
    println!(rt; "{}", hex::encode(rt.alloc(), part)?)?;
    Ok(())
}

// Whether bytes are those of a file, or the front of them.
fn print_against<R: Print>(rt: &R, bytes: &[u8], file: &[u8]) -> Result<()> {
    if bytes == file {
        println!(rt; "the same")?;
    } else if file.starts_with(bytes) {
        println!(rt; "the front of it")?;
    } else {
        println!(rt; "others")?;
    }
    Ok(())
}

/// Shows something of what was put.
pub fn show<R: Print + AllocGlobal>(rt: &R, bench: &Bench, rest: &[u8]) -> Result<()> {
    let (what, rest) = first_word(rest);
    let put = bench.put.as_slice();
    match str::from_utf8(what)? {
        "lines" => {
            let (first, last) = first_number(rest)?;
            print_lines(rt, put, first, number_of(last)?)
        }
        "from" => print_lines(rt, put, number_of(rest)?, u64::MAX),
        "with" => print_about(rt, put, &words_of(rt.alloc(), rest)?, true),
        "without" => print_about(rt, put, &words_of(rt.alloc(), rest)?, false),
        "bytes" => {
            let (place, length) = first_number(rest)?;
            print_bytes(rt, put, place, number_of(length)?)
        }
        "size" => {
            println!(rt; "{} bytes", put.len())?;
            Ok(())
        }
        "against" => print_against(rt, put, bench.bytes(rest)),
        _ => bail!("nothing is shown by this name"),
    }
}

/// Whether one more read of the last command's shelf fails.
pub fn read_again<R: Print>(rt: &R, bench: &mut Bench, name: &[u8]) -> Result<()> {
    match bench.shelf.read(name, u64::MAX) {
        Ok(bytes) => println!(rt; "read {} bytes", bytes.len())?,
        Err(_) => println!(rt; "not read")?,
    }
    Ok(())
}
