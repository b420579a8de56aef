//! The lines of a journal, one after the other.
ghost use Rattle.std.specs.Prelude.{◌≡◌, ◌<◌, ◌≤◌, ◌+◌, Some, None, Ok, IfOk, MatchOption, length};
ghost use Rattle.wf_text.specs.Lines.{lines_of};
ghost use Rattle.wf_journal.specs.Journals.{IsSized, so_far, with_line, with_lines, started, sizes_of, journal_of, GivesJournal};

use crate::events::entry_of;
use crate::journal::{patch_named, sizes_of};
use crate::{Journal, JournalFault};
use std::alloc::Global;
use wf_outside::{Memory, Text};
use wf_text::split_line;

// Adds what a line says, where it may stand there: whether an entry, a listing or a final line is
// among the lines now, or none where the line may not stand there.
#[tactic(auto, unfolding(crate::specs::Journals::with_line))]
fn push_line(
    alloc: Global,
    journal: &mut Journal,
    body: bool,
    line: &[u8],
) -> Result<Option<bool>, Memory>
    ensures line { IfOk result (λ next. MatchOption next
        (with_line (so_far journal.old body) line.now ≡ None)
        (λ now. with_line (so_far journal.old body) line.now ≡ Some (so_far journal.new now))) }
    ensures harts { journal.new.harts ≡ journal.old.harts }
    ensures frames { journal.new.frames ≡ journal.old.frames }
{
    if line.starts_with(b"= ") {
        journal.end.push(Text::of(alloc, line)?)?;
        return Ok(Some(true));
    }
    if !journal.end.is_empty() {
        return Ok(None);
    }
    if line.starts_with(b"| ") {
        return Ok(Some(true));
    }
    if !body {
        if let Some(name) = patch_named(line, journal.patches.len()) {
            journal.patches.push(Text::of(alloc, name)?)?;
            return Ok(Some(false));
        }
    }
    match entry_of(line, journal.harts) {
        Some(entry) => {
            journal.entries.push(entry)?;
            Ok(Some(true))
        }
        None => Ok(None),
    }
}

// The journal of the lines behind the first three.
#[tactic(auto, using(crate::proofs::JournalLemmas::more_steps))]
fn read_lines(alloc: Global, harts: u8, frames: u32, bytes: &[u8]) -> Result<Journal, JournalFault>
    ensures read { GivesJournal result (with_lines (started harts frames) 4 (lines_of bytes.now)) }
    ensures sizes { IfOk result (λ journal. (journal.harts ≡ harts) × (journal.frames ≡ frames)) }
{
    let mut journal = Journal {
        harts,
        frames,
        patches: Vec::new(alloc),
        entries: Vec::new(alloc),
        end: Vec::new(alloc),
    };
    let mut body = false;
    let mut rest = bytes;
    let mut number = 4;
    while !rest.is_empty() {
        let (line, behind) = split_line(rest);
        match push_line(alloc, &mut journal, body, line)? {
            Some(now) => body = now,
            None => return Err(JournalFault::Line { line: number }),
        }
        number += 1;
        rest = behind;
    }
    Ok(journal)
}

/// The journal of these bytes, or its fault. The time is in proportion to the bytes, the memory to
/// the entries, names and final lines; an entry takes no allocation of its own.
#[tactic(auto, unfolding(crate::specs::Journals::journal_of))]
pub fn read_journal(alloc: Global, bytes: &[u8]) -> Result<Journal, JournalFault>
    // What is read is the journal of the bytes, and a fault is that of the bytes, unless memory ran
    // out.
    ensures read { GivesJournal result (journal_of bytes.now) }
    ensures sized { IfOk result (λ journal. IsSized journal.harts journal.frames) }
{
    match sizes_of(bytes) {
        Ok((harts, frames, rest)) => read_lines(alloc, harts, frames, rest),
        Err(line) => Err(JournalFault::Line { line }),
    }
}
