//! Patches' files that are read.
ghost use Rattle.std.specs.Prelude.{◌≡◌, ◌<◌, ◌≤◌, ◌+◌, ◌^◌, IfOk, length};
ghost use Rattle.wf_text.specs.Lines.{lines_of};
ghost use Rattle.patch_file.specs.Words.{header_in, object_in};
ghost use Rattle.patch_file.specs.Patches.{IsPatch};
ghost use Rattle.patch_file.specs.Reading.{unpassed, line_at, replace_at, replaces_in, patch_of, Gives, GivesPatch};

use crate::lines::next_line;
use crate::words::{header_in, object_in, replace_in};
use crate::{PatchFault, PatchFile, Replace};
use std::alloc::Global;
use wf_outside::Text;

// The header: the number of the line behind it, and what stands there.
#[tactic(auto, unfolding(crate::specs::Reading::line_at))]
fn read_header(bytes: &[u8]) -> Result<(u64, &[u8]), PatchFault>
    ensures read { Gives (λ x. (tt, unpassed x.0 (lines_of x.1.now))) result
        (line_at header_in (1 + length (lines_of bytes.now)) (unpassed 1 (lines_of bytes.now))) }
    ensures last { IfOk result
        (λ x. x.0 + length (lines_of x.1.now) ≡ 1 + length (lines_of bytes.now)) }
    ensures place { IfOk result (λ x. x.0 + length x.1.now ≤ 1 + length bytes.now) }
{
    let line = next_line(bytes, 1)?;
    match header_in(line.bytes) {
        Some(()) => Ok((line.number + 1, line.behind)),
        None => Err(PatchFault::Line { line: line.number }),
    }
}

// The object's name, the number of the line behind it, and what stands there.
#[tactic(auto, unfolding(crate::specs::Reading::line_at))]
fn read_object(bytes: &[u8], first: u64) -> Result<(&[u8], u64, &[u8]), PatchFault>
    requires { first + length bytes.now < 2 ^ 64 }
    ensures read { Gives (λ x. (x.0.now, unpassed x.1 (lines_of x.2.now))) result
        (line_at object_in (first + length (lines_of bytes.now))
        (unpassed first (lines_of bytes.now))) }
    ensures place { IfOk result (λ x. x.1 + length x.2.now ≤ first + length bytes.now) }
{
    let line = next_line(bytes, first)?;
    match object_in(line.bytes) {
        Some(name) => Ok((name, line.number + 1, line.behind)),
        None => Err(PatchFault::Line { line: line.number }),
    }
}

// What the line of this number replaces.
#[tactic(auto, unfolding(crate::specs::Reading::replace_at))]
fn replace_at(alloc: Global, number: u64, line: &[u8]) -> Result<Replace, PatchFault>
    ensures { Gives (λ replace. replace) result (replace_at number line.now) }
{
    match replace_in(line) {
        Some((old, new)) => Ok(Replace {
            old: Text::of(alloc, old)?,
            new: Text::of(alloc, new)?,
            line: number,
        }),
        None => Err(PatchFault::Line { line: number }),
    }
}

// What the lines from this number on replace.
#[tactic(auto, using(crate::proofs::ReplaceLemmas::replace_steps))]
fn read_replaces(alloc: Global, bytes: &[u8], first: u64) -> Result<Vec<Replace>, PatchFault>
    requires { first + length bytes.now < 2 ^ 64 }
    ensures { Gives (λ replaces. replaces.items) result
        (replaces_in (unpassed first (lines_of bytes.now))) }
{
    let mut replaces = Vec::new(alloc);
    let mut rest = bytes;
    let mut number = first;
    while let Ok(line) = next_line(rest, number) {
        replaces.push(replace_at(alloc, line.number, line.bytes)?)?;
        rest = line.behind;
        number = line.number + 1;
    }
    Ok(replaces)
}

/// The file of these bytes, or its first fault. The time is in proportion to the bytes, the memory
/// to the names.
#[tactic(auto, unfolding(crate::specs::Reading::patch_of))]
pub fn read_patch(alloc: Global, bytes: &[u8]) -> Result<PatchFile, PatchFault>
    // What is read is the file of the bytes, and a fault is that of the bytes, unless memory ran
    // out.
    ensures read { GivesPatch result (patch_of bytes.now) }
    // What each file keeps.
    ensures kept { IfOk result (λ patch. IsPatch patch) }
{
    let (number, rest) = read_header(bytes)?;
    let (name, number, rest) = read_object(rest, number)?;
    let object = Text::of(alloc, name)?;
    let replaces = read_replaces(alloc, rest, number)?;
    Ok(PatchFile { object, replaces })
}
