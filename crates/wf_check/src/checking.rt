//! The check of a journal.
ghost use Rattle.std.specs.Prelude.{ℕ, List, ◌≡◌, ◌≤◌, ◌⊎◌, ◌↔◌, Err, IfErr, IfOk, IfSome, OnOk, length, true};
ghost use Rattle.std.specs.List.{AllByRecursion};
ghost use Rattle.wf_outside.specs.Files.{HasRisen};
ghost use Rattle.wf_status.specs.declared.status.Status.{Status};
ghost use Rattle.wf_status.specs.declared.status.Status.TheVariants as statuses;
ghost use Rattle.wf_flat.specs.Counts.{used_of};
ghost use Rattle.wf_sound.specs.Sound.{IsDelta};
ghost use Rattle.wf_fetch.specs.Stages.{IsReadFault};
ghost use Rattle.wf_journal.specs.Finals.{final_lines};
ghost use Rattle.wf_journal.specs.Journals.{IsSized};
ghost use Rattle.wf_patches.specs.Needed.{OfSome, held_in};
ghost use Rattle.wf_check.specs.Stages.{boot_for, frames_stage};
ghost use Rattle.wf_check.specs.Checking.{CheckCallsFor, IsAccepted, IsRight, MayCheck, OfNeeded, StagesCallFor};

use crate::files::{CheckedFiles, fetch_files};
use crate::rules::rule_of;
use crate::wholeness::{data_is_whole, text_is_whole};
use std::alloc::Global;
use wf_flat::{BootFault, Flat, boot};
use wf_journal::final_text;
use wf_outside::{Limits, MOST_BIRTHS, MOST_WRITES, Memory, Shelf, Text};
use wf_replay::{ReplayFault, replay};
use wf_sound::starts_are_sound;
use wf_status::{EntryRule, LimitKind, Status};

// Whether a line is the same as another.
fn is_same(one: &Text, other: &Text) -> bool
    ensures { (result ≡ true) ↔ (one.now ≡ other.now) }
{
    one.bytes() == other.bytes()
}

// Whether the lines are the same.
fn are_same(one: &[Text], other: &[Text]) -> bool
    ensures { (result ≡ true) ↔ (one.now ≡ other.now) }
{
    let mut rest = other;
    for line in one {
        let Some((first, behind)) = rest.split_first() else {
            return false;
        };
        if !is_same(line, first) {
            return false;
        }
        rest = behind;
    }
    rest.is_empty()
}

// Whether the lines are the final lines of a state.
fn are_final(alloc: Global, lines: &[Text], flat: &Flat) -> Result<bool, Memory>
    ensures { IfOk result (λ are. (are ≡ true) ↔ (lines.now ≡ final_lines flat.now)) }
{
    let shown = final_text(alloc, flat)?;
    Ok(are_same(lines, &shown))
}

// The state at the start of a journal's run; or the limit of its frames.
fn start(alloc: Global, files: &CheckedFiles) -> Result<Flat, Status>
    requires sized { IsSized files.now.journal.harts files.now.journal.frames }
    ensures ok { IfOk result (λ flat. flat ≡ boot_for files.now) }
    ensures fits { OnOk result (used_of (boot_for files.now) ≤ files.now.journal.frames) }
    ensures cause { IfErr result
        (λ status. (status ≡ statuses.Memory) ⊎ (frames_stage files.now ≡ Err status)) }
    ensures kind { IfErr result MayCheck }
{
    let limits = Limits {
        frames: files.journal.frames,
        last_writes: MOST_WRITES,
        last_birth: MOST_BIRTHS,
    };
    match boot(alloc, &files.image, files.journal.harts, limits) {
        Ok(flat) => Ok(flat),
        Err(BootFault::NoFrames { need, have }) => Err(Status::Limit {
            what: LimitKind::Frames,
            number: need,
            most: have,
        }),
        Err(BootFault::Memory) => Err(Status::Memory),
    }
}

// What files call for: Done with the number of the journal's entries where all is right, and else
// why not.
fn check_files(alloc: Global, files: &CheckedFiles) -> Result<u64, Status>
    requires sized { IsSized files.now.journal.harts files.now.journal.frames }
    requires patches { AllByRecursion IsDelta files.now.deltas }
    requires few { length files.now.deltas ≤ 64 }
    ensures right { IfOk result
        (λ count. IsRight files.now × (count ≡ length files.now.journal.entries)) }
    ensures fits { OnOk result (used_of (boot_for files.now) ≤ files.now.journal.frames) }
    ensures cause { IfErr result
        (λ status. (status ≡ statuses.Memory)
        ⊎ StagesCallFor (frames_stage files.now) status) }
    ensures kind { IfErr result MayCheck }
{
    starts_are_sound();
    text_is_whole(&files.image.text);
    data_is_whole(&files.image.pages);
    let flat = start(alloc, files)?;
    let journal = &files.journal;
    let end = match replay(alloc, flat, &journal.entries, &files.deltas) {
        Ok(end) => end,
        Err(ReplayFault::Bad { index, rule }) => return Err(Status::Illegal {
            index,
            rule: rule_of(rule),
        }),
        Err(ReplayFault::Memory) => return Err(Status::Memory),
    };
    let entries = journal.entries.len() as u64;
    match are_final(alloc, &journal.end, &end) {
        Ok(true) => Ok(entries),
        Ok(false) => Err(Status::Illegal {
            index: entries,
            rule: EntryRule::Final,
        }),
        Err(Memory) => Err(Status::Memory),
    }
}

/// Checks the journal of one name against the image of another, with the patches that the journal
/// names: the number of its entries where the machine allows each of them and the final lines are
/// those of its end.
///
/// # Errors
///
/// What the files call for: the answer of the first stage that fails of image, journal, patches and
/// frames; or `Illegal` with the first entry that is not allowed, or with other final lines. And
/// `Shelf` where the read of a needed name failed, and `Memory`.
pub fn fetch_checked<S: Shelf>(
    alloc: Global,
    shelf: &mut S,
    image_name: &[u8],
    journal_name: &[u8],
) -> Result<u64, Status>
    ensures right { IfOk result
        (λ count. IfSome (S.holds shelf.old)
        (λ files. IsAccepted (held_in files) image_name.now journal_name.now count)) }
    ensures cause { IfErr result
        (λ status. IfSome (S.holds shelf.old)
        (λ files. IsReadFault status
        ⊎ CheckCallsFor (held_in files) image_name.now journal_name.now status)) }
    ensures kind { IfErr result MayCheck }
    ensures shelf { result ≡ Err Status.Shelf
        → OfSome (λ name. HasRisen (S.faults shelf.old name) (S.faults shelf.new name)) }
    ensures needed { result ≡ Err Status.Shelf
        → IfSome (S.holds shelf.old)
        (λ files. OfNeeded (held_in files) image_name.now journal_name.now
        (λ name. HasRisen (S.faults shelf.old name) (S.faults shelf.new name))) }
    ensures holds { S.holds shelf.new ≡ S.holds shelf.old }
    ensures counts { (other : List ℕ) → S.faults shelf.old other ≤ S.faults shelf.new other }
{
    let files = fetch_files(alloc, shelf, image_name, journal_name)?;
    check_files(alloc, &files)
}
