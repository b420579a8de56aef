//! Journals that are read.
ghost use Rattle.std.specs.Prelude.{◌≡◌, ◌≤◌, List, ℕ, Some, IfOk, IfSome, MatchOption, None, option_map, length};
ghost use Rattle.wf_text.specs.Lines.{lines_of};
ghost use Rattle.wf_journal.specs.Events.{entry_of};
ghost use Rattle.wf_journal.specs.Journals.{IsSized, JournalValue, SoFar, size_of, patch_named, with_line, with_lines, started, version_of, line_at, sizes_of, journal_of, GivesJournal, Found};

use crate::words::word_at;
use std::alloc::{AllocError, AllocFailed, Global};
use std::marker::Model;
use wf_flat::Entry;
use wf_outside::Text;
use wf_text::{decimal_of, name_of, split_line};

/// A journal that was read: the sizes of its run, the names of its patches by their numbers, its
/// entries, and its final lines, each without its newline.
#[derive(Drop)]
pub struct Journal {
    pub harts: u8,
    pub frames: u32,
    pub patches: Vec<Text>,
    pub entries: Vec<Entry>,
    pub end: Vec<Text>,
}

impl Model for Journal {
    ghost use Rattle.wf_journal.specs.Journals.{JournalValue};

    ghost Value = { JournalValue };

    ghost view = { λ j. record {
      harts = j.harts;
      frames = j.frames;
      patches = j.patches.items;
      entries = j.entries.items;
      end = j.end.items;
    } };
}

/// Why a journal was not read.
#[derive(Clone, Copy, Debug, PartialEq, Eq)]
pub enum JournalFault {
    /// The first line, counted from 1, that may not stand where it does, or one past the last where
    /// one of the first three is missing.
    Line { line: u64 },
    /// Memory ran out.
    Memory,
}

impl From<AllocError> for JournalFault {
    ghost use Rattle.wf_journal.specs.declared.journal.JournalFault.TheVariants.{Memory};

    ghost from_gives = { λ _ e. e ≡ Memory };

    fn from(_: AllocError) -> Self {
        JournalFault::Memory
    }
}

impl<T: Drop> From<AllocFailed<T>> for JournalFault {
    ghost use Rattle.wf_journal.specs.declared.journal.JournalFault.TheVariants.{Memory};

    ghost from_gives = { λ _ e. e ≡ Memory };

    fn from(_: AllocFailed<T>) -> Self {
        JournalFault::Memory
    }
}

impl From<wf_outside::Memory> for JournalFault {
    ghost use Rattle.wf_journal.specs.declared.journal.JournalFault.TheVariants.{Memory};

    ghost from_gives = { λ _ e. e ≡ Memory };

    fn from(_: wf_outside::Memory) -> Self {
        JournalFault::Memory
    }
}

// The number behind a name, from the least to the most.
#[tactic(auto, unfolding(crate::specs::Journals::size_of))]
fn size_of(line: &[u8], name: &[u8], least: u64, most: u64) -> Option<u64>
    ensures value { result ≡ size_of name.now least most line.now }
    ensures few { IfSome result (λ n. n ≤ most) }
    ensures many { IfSome result (λ n. least ≤ n) }
{
    if !line.starts_with(name) {
        return None;
    }
    let (_, digits) = line.split_at(name.len());
    let number = decimal_of(digits, most)?;
    if number < least {
        return None;
    }
    Some(number)
}

// The first line, which names the format.
#[tactic(auto, unfolding(crate::specs::Journals::line_at), using(crate::proofs::JournalLemmas::line_steps))]
fn version_line(bytes: &[u8]) -> Result<&[u8], u64>
    ensures { Found (λ rest. (1, lines_of rest.now)) result
        (line_at 1 version_of (lines_of bytes.now)) }
{
    if bytes.is_empty() {
        return Err(1);
    }
    let (line, rest) = split_line(bytes);
    if line == b"wfpatch run 1".as_slice() {
        return Ok(rest);
    }
    Err(1)
}

// The line of a size, of this number.
#[tactic(auto, unfolding(crate::specs::Journals::line_at), using(crate::proofs::JournalLemmas::line_steps))]
fn size_line<'a>(
    bytes: &'a [u8],
    number: u64,
    name: &[u8],
    least: u64,
    most: u64,
) -> Result<(u64, &'a [u8]), u64>
    ensures value { Found (λ x. (x.0, lines_of x.1.now)) result
        (line_at number (size_of name.now least most) (lines_of bytes.now)) }
    ensures few { IfOk result (λ x. x.0 ≤ most) }
    ensures many { IfOk result (λ x. least ≤ x.0) }
{
    if bytes.is_empty() {
        return Err(number);
    }
    let (line, rest) = split_line(bytes);
    match size_of(line, name, least, most) {
        Some(size) => Ok((size, rest)),
        None => Err(number),
    }
}

/// The first three lines.
#[tactic(auto, unfolding(crate::specs::Journals::sizes_of))]
pub fn sizes_of(bytes: &[u8]) -> Result<(u8, u32, &[u8]), u64>
    ensures found { Found (λ x. (x.0, x.1, lines_of x.2.now)) result
        (sizes_of (lines_of bytes.now)) }
    ensures sized { IfOk result (λ x. IsSized x.0 x.1) }
{
    let rest = version_line(bytes)?;
    let (harts, rest) = size_line(rest, 2, b"harts ", 1, 64)?;
    let (frames, rest) = size_line(rest, 3, b"frames ", 64, 65536)?;
    Ok((harts as u8, frames as u32, rest))
}

/// The name of the patch of this number.
#[tactic(auto, unfolding(crate::specs::Journals::patch_named))]
pub fn patch_named(line: &[u8], number: usize) -> Option<&[u8]>
    ensures { option_map (λ name. name.now) result ≡ patch_named number line.now }
{
    if !line.starts_with(b"patch") {
        return None;
    }
    let (_, rest) = line.split_at(5);
    let (told, rest) = word_at(rest)?;
    let told = decimal_of(told, 63)?;
    let (name, rest) = word_at(rest)?;
    let file = name_of(name)?;
    if told != number as u64 || !rest.is_empty() {
        return None;
    }
    Some(file)
}
