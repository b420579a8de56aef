//! Changes of a journal's lines.
use std::alloc::{AllocError, Global};
use wf_outside::{Memory, Text};
use wf_text::split_line;

/// What is changed of the line at a place.
#[derive(Clone, Copy, Debug, PartialEq, Eq)]
pub enum Change {
    /// Another line stands there.
    Put,
    /// It is left out.
    Drop,
    /// It stands there twice.
    Twice,
    /// It stands behind the next.
    Exchange,
}

/// The change of a name.
pub fn change_named(name: &[u8]) -> Option<Change> {
    if name == b"put".as_slice() {
        Some(Change::Put)
    } else if name == b"drop".as_slice() {
        Some(Change::Drop)
    } else if name == b"twice".as_slice() {
        Some(Change::Twice)
    } else if name == b"exchange".as_slice() {
        Some(Change::Exchange)
    } else {
        None
    }
}

/// The lines of a text, each without its newline.
pub fn lines_of(alloc: Global, text: &[u8]) -> Result<Vec<Text>, Memory> {
    let mut lines = Vec::new(alloc);
    let mut rest = text;
    while !rest.is_empty() {
        let (line, behind) = split_line(rest);
        lines.push(Text::of(alloc, line)?)?;
        rest = behind;
    }
    Ok(lines)
}

/// The lines as one text, each with its newline.
pub fn joined(alloc: Global, lines: &[Text]) -> Result<Vec<u8>, AllocError> {
    let mut text = Vec::new(alloc);
    for line in lines {
        text.extend_from_slice(line.bytes())?;
        text.push(b'\n')?;
    }
    Ok(text)
}

/// Makes a change at a place; `line` is what is put. Where the place is not there, nothing changes.
pub fn make(
    alloc: Global,
    lines: &mut Vec<Text>,
    place: usize,
    change: Change,
    line: &[u8],
) -> Result<(), Memory> {
    if place >= lines.len() {
        return Ok(());
    }
    match change {
        Change::Put => lines[place] = Text::of(alloc, line)?,
        Change::Drop => {
            lines.remove(place);
        }
        Change::Twice => {
            let again = Text::of(alloc, lines[place].bytes())?;
            lines.insert(place, again)?;
        }
        Change::Exchange => {
            if place + 1 < lines.len() {
                lines.swap(place, place + 1);
            }
        }
    }
    Ok(())
}
