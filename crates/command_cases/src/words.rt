//! The words of a line.
use anyhow::{Result, bail};
use std::alloc::Global;
use wf_outside::{Memory, Text};
use wf_text::{any_hex_of, decimal_of, split_word, without_spaces};

/// A text of these bytes.
pub fn new_text(alloc: Global, bytes: &[u8]) -> Result<Text> {
    match Text::of(alloc, bytes) {
        Ok(text) => Ok(text),
        Err(Memory) => bail!("memory"),
    }
}

/// What stands behind the space that ends a word.
pub fn behind(rest: &[u8]) -> &[u8] {
    rest.get(1..).unwrap_or(&[])
}

/// The number that decimal digits say.
pub fn number_of(word: &[u8]) -> Result<u64> {
    match decimal_of(word, u64::MAX) {
        Some(number) => Ok(number),
        None => bail!("{} is no number", str::from_utf8(word)?),
    }
}

/// The address that hexadecimal digits say.
pub fn address_of(word: &[u8]) -> Result<u64> {
    match any_hex_of(word, u64::MAX) {
        Some(address) => Ok(address),
        None => bail!("{} is no address", str::from_utf8(word)?),
    }
}

/// The first word, and what stands behind the space that ends it.
pub fn first_word(rest: &[u8]) -> (&[u8], &[u8]) {
    let (word, rest) = split_word(rest);
    (word, behind(rest))
}

/// The first number, and what stands behind it.
pub fn first_number(rest: &[u8]) -> Result<(u64, &[u8])> {
    let (word, rest) = first_word(rest);
    Ok((number_of(word)?, rest))
}

/// The words of a line; `""` is the empty one.
pub fn words_of(alloc: Global, line: &[u8]) -> Result<Vec<Text>> {
    let mut words = Vec::new(alloc);
    let mut rest = without_spaces(line);
    for _ in 0..line.len() {
        if rest.is_empty() {
            break;
        }
        let (word, more) = split_word(rest);
        let word = if word == b"\"\"".as_slice() {
            b"".as_slice()
        } else {
            word
        };
        words.push(new_text(alloc, word)?)?;
        rest = without_spaces(more);
    }
    Ok(words)
}

/// The numbers of a line.
pub fn numbers_of(alloc: Global, line: &[u8]) -> Result<Vec<u64>> {
    let mut numbers = Vec::new(alloc);
    for word in &words_of(alloc, line)? {
        numbers.push(number_of(word.bytes())?)?;
    }
    Ok(numbers)
}

/// The words of 32 bits of a line.
pub fn code_of(alloc: Global, line: &[u8]) -> Result<Vec<u32>> {
    let mut code = Vec::new(alloc);
    for word in &words_of(alloc, line)? {
        code.push(u32::try_from(address_of(word.bytes())?)?)?;
    }
    Ok(code)
}
