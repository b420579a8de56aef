//! The lines that make files and images.
use crate::bench::Bench;
use crate::words::{address_of, code_of, first_number, first_word, number_of};
use anyhow::{Result, bail};
use elf_read::constants::{PF_R, PF_W, PF_X};
use std::alloc::Global;
use wf_text::split_line;

// The rights of a segment.
fn rights_of(word: &[u8]) -> Result<u32> {
    match str::from_utf8(word)? {
        "r" => Ok(PF_R),
        "rw" => Ok(PF_R | PF_W),
        "rx" => Ok(PF_R | PF_X),
        _ => bail!("no rights are of this name"),
    }
}

// Another segment: `RIGHTS ADDRESS MEMORY DIGITS`.
fn load(alloc: Global, bench: &mut Bench, rest: &[u8]) -> Result<()> {
    let (rights, rest) = first_word(rest);
    let (address, rest) = first_word(rest);
    let (memory, digits) = first_number(rest)?;
    let bytes = hex::decode(alloc, digits)?;
    let flags = rights_of(rights)?;
    match bench
        .image
        .load(flags, address_of(address)?, &bytes, memory)
    {
        Ok(()) => Ok(()),
        Err(_) => bail!("a segment can't be added"),
    }
}

// Another segment of instructions: `ADDRESS WORD ..`.
fn code(alloc: Global, bench: &mut Bench, rest: &[u8]) -> Result<()> {
    let (address, rest) = first_word(rest);
    let words = code_of(alloc, rest)?;
    match bench.image.text(address_of(address)?, &words) {
        Ok(()) => Ok(()),
        Err(_) => bail!("a segment can't be added"),
    }
}

// Another change of the image's file: `PLACE DIGITS`.
fn change(alloc: Global, bench: &mut Bench, rest: &[u8]) -> Result<()> {
    let (place, digits) = first_number(rest)?;
    let bytes = hex::decode(alloc, digits)?;
    match bench.image.change(place, &bytes) {
        Ok(()) => Ok(()),
        Err(_) => bail!("a change can't be added"),
    }
}

// So many lines of a file.
fn add_lines(alloc: Global, bench: &mut Bench, file: &[u8], count: u64, text: &[u8]) -> Result<()> {
    let mut bytes = Vec::new(alloc);
    for _ in 0..count {
        bytes.extend_from_slice(text)?;
        bytes.push(b'\n')?;
    }
    bench.add(file, &bytes)
}

// So many times one byte: `COUNT BYTE`.
fn fill(alloc: Global, bench: &mut Bench, file: &[u8], rest: &[u8]) -> Result<()> {
    let (count, byte) = first_number(rest)?;
    let byte = byte.first().copied().unwrap_or(0);
    let bytes = vec![in alloc; byte; usize::try_from(count)?]?;
    bench.add(file, &bytes)
}

// The front of a file.
fn cut(alloc: Global, bench: &mut Bench, file: &[u8], rest: &[u8]) -> Result<()> {
    let length = usize::try_from(number_of(rest)?)?;
    let Some(front) = bench.bytes(file).get(..length) else {
        bail!("a file is too short");
    };
    let front = front.to_vec(alloc)?;
    bench.set(file, front)
}

// Other bytes at a place of a file: `PLACE DIGITS`.
fn poke(alloc: Global, bench: &mut Bench, file: &[u8], rest: &[u8]) -> Result<()> {
    let (place, digits) = first_number(rest)?;
    let other = hex::decode(alloc, digits)?;
    let place = usize::try_from(place)?;
    let bytes = bench.bytes(file);
    let (Some(front), Some(rest)) = (bytes.get(..place), bytes.get(place..)) else {
        bail!("a file is too short");
    };
    let Some(back) = rest.get(other.len()..) else {
        bail!("a file is too short");
    };
    let mut changed = front.to_vec(alloc)?;
    changed.extend_from_slice(&other)?;
    changed.extend_from_slice(back)?;
    bench.set(file, changed)
}

// A file with other bytes in the place of a line, counted from 1.
fn edit(alloc: Global, bench: &mut Bench, file: &[u8], line: u64, text: &[u8]) -> Result<()> {
    let mut bytes = Vec::new(alloc);
    let mut rest = bench.bytes(file);
    let mut number = 0u64;
    while !rest.is_empty() {
        let (old, behind) = split_line(rest);
        number = number.saturating_add(1);
        if number == line {
            bytes.extend_from_slice(text)?;
        } else {
            bytes.extend_from_slice(old)?;
            bytes.push(b'\n')?;
        }
        rest = behind;
    }
    if number < line {
        bail!("a file has no such line");
    }
    bench.set(file, bytes)
}

// Another line in the place of one: `LINE TEXT`.
fn replace(alloc: Global, bench: &mut Bench, file: &[u8], rest: &[u8]) -> Result<()> {
    let (line, text) = first_number(rest)?;
    let mut text = text.to_vec(alloc)?;
    text.push(b'\n')?;
    edit(alloc, bench, file, line, &text)
}

// A line that makes or changes a file.
fn make_file(
    alloc: Global,
    bench: &mut Bench,
    step: &[u8],
    file: &[u8],
    rest: &[u8],
) -> Result<()> {
    match str::from_utf8(step)? {
        "line" => add_lines(alloc, bench, file, 1, rest),
        "lines" => {
            let (count, text) = first_number(rest)?;
            add_lines(alloc, bench, file, count, text)
        }
        "part" => bench.add(file, rest),
        "bytes" => bench.add(file, &hex::decode(alloc, rest)?),
        "fill" => fill(alloc, bench, file, rest),
        "cut" => cut(alloc, bench, file, rest),
        "poke" => poke(alloc, bench, file, rest),
        "replace" => replace(alloc, bench, file, rest),
        "drop" => edit(alloc, bench, file, number_of(rest)?, b""),
        "build" => bench.build(file),
        "copy" => {
            let bytes = bench.bytes(rest).to_vec(alloc)?;
            bench.set(file, bytes)
        }
        _ => bail!("no line begins with {}", str::from_utf8(step)?),
    }
}

/// A line that makes or changes a file or the image.
pub fn make(alloc: Global, bench: &mut Bench, step: &[u8], rest: &[u8]) -> Result<()> {
    match str::from_utf8(step)? {
        "code" => code(alloc, bench, rest),
        "load" => load(alloc, bench, rest),
        "change" => change(alloc, bench, rest),
        _ => {
            let (file, text) = first_word(rest);
            make_file(alloc, bench, step, file, text)
        }
    }
}
