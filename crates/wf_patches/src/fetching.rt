//! Patches of a shelf.
ghost use Rattle.std.specs.Prelude.{◌≡◌, ◌<◌, ◌≤◌, ◌⊎◌, ◌^◌, ℕ, List, IfErr, IfOk, IfSome, Ok, Err, length};
ghost use Rattle.wf_outside.specs.Files.{HasRisen, first_bytes};
ghost use Rattle.patch_build.specs.Fits.{next_behind, FitBehind, FitsArea, area_over};
ghost use Rattle.wf_status.specs.declared.status.Status.{Status};
ghost use Rattle.wf_fetch.specs.Stages.{IsReadFault};
ghost use Rattle.wf_patches.specs.Needed.{held_in, MayFetchPatches, OfNeeded, OfRead, OfSome};
ghost use Rattle.wf_patches.specs.Stages.{file_stage, object_stage, patch_stage, patches_stage};

use crate::base::Base;
use crate::reading::{fault_status, read_file, read_object};
use elf_read::Elf;
use patch_build::{Built, build};
use patch_file::PatchFile;
use std::alloc::Global;
use wf_fetch::fetch;
use wf_outside::{Delta, Image, Memory, Shelf, Text};
use wf_status::Status;

// The file of the patch of this number.
fn fetch_file<S: Shelf>(
    alloc: Global,
    shelf: &mut S,
    patch: u64,
    name: &[u8],
) -> Result<PatchFile, Status>
    ensures found { IfOk result
        (λ file. IfSome (S.holds shelf.old)
        (λ files. file_stage patch (first_bytes name.now files) ≡ Ok file)) }
    ensures cause { IfErr result
        (λ status. IfSome (S.holds shelf.old)
        (λ files. IsReadFault status
        ⊎ (file_stage patch (first_bytes name.now files) ≡ Err status))) }
    ensures kind { IfErr result MayFetchPatches }
    ensures shelf { result ≡ Err Status.Shelf
        → HasRisen (S.faults shelf.old name.now) (S.faults shelf.new name.now) }
    ensures holds { S.holds shelf.new ≡ S.holds shelf.old }
    ensures counts { (other : List ℕ) → S.faults shelf.old other ≤ S.faults shelf.new other }
{
    let bytes = fetch(shelf, name)?;
    read_file(alloc, patch, &bytes)
}

// The object of the patch of this number.
fn fetch_object<S: Shelf>(
    alloc: Global,
    shelf: &mut S,
    patch: u64,
    name: &[u8],
) -> Result<Elf, Status>
    ensures found { IfOk result
        (λ object. IfSome (S.holds shelf.old)
        (λ files. object_stage patch (first_bytes name.now files) ≡ Ok object)) }
    ensures cause { IfErr result
        (λ status. IfSome (S.holds shelf.old)
        (λ files. IsReadFault status
        ⊎ (object_stage patch (first_bytes name.now files) ≡ Err status))) }
    ensures kind { IfErr result MayFetchPatches }
    ensures shelf { result ≡ Err Status.Shelf
        → HasRisen (S.faults shelf.old name.now) (S.faults shelf.new name.now) }
    ensures holds { S.holds shelf.new ≡ S.holds shelf.old }
    ensures counts { (other : List ℕ) → S.faults shelf.old other ≤ S.faults shelf.new other }
{
    let bytes = fetch(shelf, name)?;
    read_object(alloc, patch, bytes)
}

// What is built of the patch of this number over this base.
fn fetch_patch<S: Shelf>(
    alloc: Global,
    shelf: &mut S,
    patch: u64,
    name: &[u8],
    base: &Base,
) -> Result<Built, Status>
    ensures found { IfOk result
        (λ built. IfSome (S.holds shelf.old)
        (λ files. patch_stage (held_in files) patch base.now name.now ≡ Ok built)) }
    ensures fits { IfOk result (λ built. FitsArea base.now.area built.delta) }
    ensures next { IfOk result
        (λ built. built.next ≡ next_behind base.now.area.next built.delta) }
    ensures cause { IfErr result
        (λ status. IfSome (S.holds shelf.old)
        (λ files. IsReadFault status
        ⊎ (patch_stage (held_in files) patch base.now name.now ≡ Err status))) }
    ensures kind { IfErr result MayFetchPatches }
    ensures shelf { result ≡ Err Status.Shelf
        → OfSome (λ other. HasRisen (S.faults shelf.old other) (S.faults shelf.new other)) }
    ensures needed { result ≡ Err Status.Shelf → IfSome (S.holds shelf.old)
        (λ files. OfRead (held_in files) patch name.now
        (λ other. HasRisen (S.faults shelf.old other) (S.faults shelf.new other))) }
    ensures holds { S.holds shelf.new ≡ S.holds shelf.old }
    ensures counts { (other : List ℕ) → S.faults shelf.old other ≤ S.faults shelf.new other }
{
    let file = fetch_file(alloc, shelf, patch, name)?;
    let object = fetch_object(alloc, shelf, patch, file.object.bytes())?;
    match build(alloc, &file, &object, &base.names, &base.area) {
        Ok(built) => Ok(built),
        Err(fault) => Err(fault_status(patch, fault)),
    }
}

/// What the patches of these names bring to an image: for each name, in order, the file of that
/// name and the object that it names are read, and built over the image and the patches before.
///
/// # Errors
///
/// The first that applies, patch by patch, and of one patch in this order: `Shelf` where a needed
/// file could not be read; `Limit` where it has more bytes than a file may have; `Patch`, with the
/// patch's number from 0, where its file, its object, or what is to be built of both has a fault.
/// And `Memory` where memory runs out.
pub fn fetch_patches<S: Shelf>(
    alloc: Global,
    shelf: &mut S,
    image: &Image,
    patches: &[Text],
) -> Result<Vec<Delta>, Status>
    requires { length patches.now < 2 ^ 32 }
    // What they bring is what the files mean, and each fits what it is built over.
    ensures found { IfOk result
        (λ deltas. IfSome (S.holds shelf.old)
        (λ files. patches_stage (held_in files) image.now patches.now ≡ Ok deltas.items)) }
    ensures fit { IfOk result (λ deltas. FitBehind (area_over image.now) deltas.items) }
    ensures all { IfOk result (λ deltas. length deltas.items ≡ length patches.now) }
    // Any other answer is what the files mean, or a failed read, or want of memory.
    ensures cause { IfErr result
        (λ status. IfSome (S.holds shelf.old)
        (λ files. IsReadFault status
        ⊎ (patches_stage (held_in files) image.now patches.now ≡ Err status))) }
    ensures kind { IfErr result MayFetchPatches }
    // A read fails only where the count of a needed name rose; where the shelf does not tell what
    // it holds, of some name.
    ensures shelf { result ≡ Err Status.Shelf
        → OfSome (λ name. HasRisen (S.faults shelf.old name) (S.faults shelf.new name)) }
    ensures needed { result ≡ Err Status.Shelf → IfSome (S.holds shelf.old)
        (λ files. OfNeeded (held_in files) image.now patches.now
        (λ name. HasRisen (S.faults shelf.old name) (S.faults shelf.new name))) }
    ensures holds { S.holds shelf.new ≡ S.holds shelf.old }
    ensures counts { (other : List ℕ) → S.faults shelf.old other ≤ S.faults shelf.new other }
{
    let Ok(mut base) = Base::over(alloc, image) else {
        return Err(Status::Memory);
    };
    let mut deltas = Vec::new(alloc);
    for (number, name) in patches.iter().enumerate() {
        let built = fetch_patch(alloc, shelf, number as u64, name.bytes(), &base)?;
        let Ok((next, delta)) = base.with(built) else {
            return Err(Status::Memory);
        };
        base = next;
        if deltas.push(delta).is_err() {
            return Err(Status::Memory);
        }
    }
    Ok(deltas)
}
