//! The files of a check.
ghost use Rattle.std.specs.Prelude.{◌≡◌, ◌≤◌, ◌⊎◌, ℕ, List, IfErr, IfOk, IfSome, Ok, Err, length};
ghost use Rattle.std.specs.List.{AllByRecursion};
ghost use Rattle.wf_outside.specs.Files.{HasRisen, first_bytes};
ghost use Rattle.wf_status.specs.declared.status.Status.{Status};
ghost use Rattle.wf_journal.specs.Journals.{IsSized};
ghost use Rattle.wf_sound.specs.Sound.{IsDelta};
ghost use Rattle.wf_fetch.specs.Stages.{IsReadFault};
ghost use Rattle.wf_patches.specs.Needed.{OfSome, held_in};
ghost use Rattle.wf_check.specs.Stages.{held_stage, journal_stage};
ghost use Rattle.wf_check.specs.Checking.{MayCheck, OfNeeded};

use patch_laws::fitting_patches_are_sound;
use std::alloc::Global;
use std::marker::Model;
use wf_fetch::{MAX_JOURNAL, fetch_image, fetch_within};
use wf_journal::{Journal, JournalFault, read_journal};
use wf_outside::{Delta, Image, Shelf};
use wf_patches::fetch_patches;
use wf_status::Status;

/// What the files of a check mean: an image, a journal, and what the patches that the journal names
/// bring.
#[derive(Drop)]
pub struct CheckedFiles {
    pub image: Image,
    pub journal: Journal,
    pub deltas: Vec<Delta>,
}

impl Model for CheckedFiles {
    ghost use Rattle.wf_check.specs.Stages.{CheckedFilesValue};

    ghost Value = { CheckedFilesValue };

    ghost view = { λ f. record {
      image = f.image;
      journal = f.journal;
      deltas = f.deltas.items;
    } };
}

// The journal of a file; or why there is none: Shelf, the limit of its bytes, the first line that
// may not stand where it does, and Memory.
fn fetch_journal<S: Shelf>(alloc: Global, shelf: &mut S, name: &[u8]) -> Result<Journal, Status>
    ensures found { IfOk result
        (λ journal. IfSome (S.holds shelf.old)
        (λ files. journal_stage (first_bytes name.now files) ≡ Ok journal)) }
    ensures sized { IfOk result (λ journal. IsSized journal.harts journal.frames) }
    ensures few { IfOk result (λ journal. length journal.patches ≤ 64) }
    ensures cause { IfErr result
        (λ status. IfSome (S.holds shelf.old)
        (λ files. IsReadFault status
        ⊎ (journal_stage (first_bytes name.now files) ≡ Err status))) }
    ensures kind { IfErr result MayCheck }
    ensures shelf { result ≡ Err Status.Shelf
        → HasRisen (S.faults shelf.old name.now) (S.faults shelf.new name.now) }
    ensures holds { S.holds shelf.new ≡ S.holds shelf.old }
    ensures counts { (other : List ℕ) → S.faults shelf.old other ≤ S.faults shelf.new other }
{
    let bytes = fetch_within(shelf, name, MAX_JOURNAL)?;
    match read_journal(alloc, &bytes) {
        Ok(journal) => Ok(journal),
        Err(JournalFault::Line { line }) => Err(Status::Journal { line }),
        Err(JournalFault::Memory) => Err(Status::Memory),
    }
}

/// What is held under the names of an image and of a journal; or why there is none: the first stage
/// that fails of image, journal and patches, `Shelf` where the read of a needed name failed, and
/// `Memory`.
pub fn fetch_files<S: Shelf>(
    alloc: Global,
    shelf: &mut S,
    image_name: &[u8],
    journal_name: &[u8],
) -> Result<CheckedFiles, Status>
    ensures found { IfOk result
        (λ found. IfSome (S.holds shelf.old)
        (λ files. held_stage (held_in files) image_name.now journal_name.now ≡ Ok found)) }
    // The journal's run has sizes that it may have, and each patch is one of a run.
    ensures sized { IfOk result
        (λ found. IsSized found.journal.harts found.journal.frames) }
    ensures patches { IfOk result (λ found. AllByRecursion IsDelta found.deltas) }
    ensures few { IfOk result (λ found. length found.deltas ≤ 64) }
    ensures cause { IfErr result
        (λ status. IfSome (S.holds shelf.old)
        (λ files. IsReadFault status
        ⊎ (held_stage (held_in files) image_name.now journal_name.now ≡ Err status))) }
    ensures kind { IfErr result MayCheck }
    ensures shelf { result ≡ Err Status.Shelf
        → OfSome (λ name. HasRisen (S.faults shelf.old name) (S.faults shelf.new name)) }
    ensures needed { result ≡ Err Status.Shelf
        → IfSome (S.holds shelf.old)
        (λ files. OfNeeded (held_in files) image_name.now journal_name.now
        (λ name. HasRisen (S.faults shelf.old name) (S.faults shelf.new name))) }
    ensures holds { S.holds shelf.new ≡ S.holds shelf.old }
    ensures counts { (other : List ℕ) → S.faults shelf.old other ≤ S.faults shelf.new other }
{
    fitting_patches_are_sound();
    let image = fetch_image(alloc, shelf, image_name)?;
    let journal = fetch_journal(alloc, shelf, journal_name)?;
    let deltas = fetch_patches(alloc, shelf, &image, &journal.patches)?;
    Ok(CheckedFiles {
        image,
        journal,
        deltas,
    })
}
