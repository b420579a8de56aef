//! Changes of a file's bytes.
use crate::behind;
use anyhow::{Result, bail};
use std::alloc::Global;
use wf_text::{any_hex_of, decimal_of, split_word};

// A decimal number.
fn number_of(word: &[u8]) -> Result<usize> {
    match decimal_of(word, 1_048_576) {
        Some(number) => Ok(number as usize),
        None => bail!("{} is no number", str::from_utf8(word)?),
    }
}

// So many bytes of a number at a place.
fn put(file: &mut [u8], place: usize, width: usize, value: u64) -> Result<()> {
    let bytes = value.to_le_bytes();
    let Some(bytes) = bytes.get(..width) else {
        bail!("a number has eight bytes at most");
    };
    let Some(part) = file.get_mut(place..).and_then(|rest| rest.get_mut(..width)) else {
        bail!("a change passes the end of the file");
    };
    part.copy_from_slice(bytes);
    Ok(())
}

// Makes the first change of a line, and gives what stands behind it.
fn change<'a>(alloc: Global, file: &mut Vec<u8>, line: &'a [u8]) -> Result<&'a [u8]> {
    let (first, rest) = split_word(line);
    let (second, rest) = split_word(behind(rest));
    if first == b"cut".as_slice() {
        let Some(front) = file.get(..number_of(second)?) else {
            bail!("the file is shorter");
        };
        *file = front.to_vec(alloc)?;
        return Ok(behind(rest));
    }
    let (third, rest) = split_word(behind(rest));
    let Some(value) = any_hex_of(third, u64::MAX) else {
        bail!("{} is no value", str::from_utf8(third)?);
    };
    put(file, number_of(first)?, number_of(second)?, value)?;
    Ok(behind(rest))
}

/// A file after the changes of a line, which come one after another.
pub fn changed(alloc: Global, file: Vec<u8>, line: &[u8]) -> Result<Vec<u8>> {
    let mut file = file;
    let mut rest = line;
    for _ in 0..line.len() {
        if rest.is_empty() {
            break;
        }
        rest = change(alloc, &mut file, rest)?;
    }
    Ok(file)
}
