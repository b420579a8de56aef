//! Files and images of a shelf.
ghost use Rattle.std.specs.Prelude.{◌≡◌, ◌<◌, ◌≤◌, ◌^◌, ℕ, List, IfOk, IfErr, IfSome, Some, Err, vec_len};
ghost use Rattle.wf_outside.specs.Files.{first_bytes, HasRisen};
ghost use Rattle.wf_status.specs.declared.status.Status.{Status};
ghost use Rattle.wf_fetch.specs.Held.{HoldsBytes, HoldsWithin, max_file};
ghost use Rattle.wf_fetch.specs.Loaded.{loaded};
ghost use Rattle.wf_fetch.specs.Fetching.{IsReadStatus, IsImageStatus, MayRead, MayFetchImage};

use crate::reading::{ImageFault, read_image};
use std::alloc::Global;
use wf_outside::{Image, Shelf, ShelfFault};
use wf_status::{LimitKind, Status};

/// The most bytes of a file.
pub const MAX_FILE: u64 = 67_108_864;

/// The most bytes of a journal.
pub const MAX_JOURNAL: u64 = 268_435_456;

/// The bytes of a file, of which there are at most so many; or Shelf where the read failed, the
/// limit where the file is longer, and Memory.
pub fn fetch_within<S: Shelf>(shelf: &mut S, name: &[u8], most: u64) -> Result<Vec<u8>, Status>
    requires { most < 2 ^ 32 }
    ensures found { IfOk result
        (λ bytes. IfSome (S.holds shelf.old)
        (λ files. HoldsWithin most (first_bytes name.now files) (λ held. held ≡ bytes.items))) }
    ensures few { IfOk result (λ bytes. vec_len bytes ≤ most) }
    ensures cause { IfErr result
        (λ status. IfSome (S.holds shelf.old)
        (λ files. IsReadStatus most (first_bytes name.now files) status)) }
    ensures kind { IfErr result MayRead }
    ensures shelf { result ≡ Err Status.Shelf
        → HasRisen (S.faults shelf.old name.now) (S.faults shelf.new name.now) }
    ensures holds { S.holds shelf.new ≡ S.holds shelf.old }
    ensures counts { (other : List ℕ) → S.faults shelf.old other ≤ S.faults shelf.new other }
{
    match shelf.read(name, most) {
        Ok(bytes) => Ok(bytes),
        Err(ShelfFault::Failed) => Err(Status::Shelf),
        Err(ShelfFault::TooLong { .. }) => Err(Status::Limit {
            what: LimitKind::File,
            number: most + 1,
            most,
        }),
        Err(ShelfFault::Memory) => Err(Status::Memory),
    }
}

/// The bytes of a file, of which there are at most `MAX_FILE`; or Shelf where the read failed, the
/// limit where the file is longer, and Memory.
pub fn fetch<S: Shelf>(shelf: &mut S, name: &[u8]) -> Result<Vec<u8>, Status>
    ensures found { IfOk result
        (λ bytes. IfSome (S.holds shelf.old)
        (λ files. HoldsBytes (first_bytes name.now files) (λ held. held ≡ bytes.items))) }
    ensures few { IfOk result (λ bytes. vec_len bytes ≤ max_file) }
    ensures cause { IfErr result
        (λ status. IfSome (S.holds shelf.old)
        (λ files. IsReadStatus max_file (first_bytes name.now files) status)) }
    ensures kind { IfErr result MayRead }
    ensures shelf { result ≡ Err Status.Shelf
        → HasRisen (S.faults shelf.old name.now) (S.faults shelf.new name.now) }
    ensures holds { S.holds shelf.new ≡ S.holds shelf.old }
    ensures counts { (other : List ℕ) → S.faults shelf.old other ≤ S.faults shelf.new other }
{
    fetch_within(shelf, name, MAX_FILE)
}

/// The image of a file; or why there is none: Shelf, the limit of its bytes, the first rule that it
/// breaks with its place, and Memory.
pub fn fetch_image<S: Shelf>(alloc: Global, shelf: &mut S, name: &[u8]) -> Result<Image, Status>
    ensures found { IfOk result
        (λ image. IfSome (S.holds shelf.old)
        (λ files. HoldsBytes (first_bytes name.now files) (λ bytes. loaded bytes ≡ Some image))) }
    ensures cause { IfErr result
        (λ status. IfSome (S.holds shelf.old)
        (λ files. IsImageStatus (first_bytes name.now files) status)) }
    ensures kind { IfErr result MayFetchImage }
    ensures shelf { result ≡ Err Status.Shelf
        → HasRisen (S.faults shelf.old name.now) (S.faults shelf.new name.now) }
    ensures holds { S.holds shelf.new ≡ S.holds shelf.old }
    ensures counts { (other : List ℕ) → S.faults shelf.old other ≤ S.faults shelf.new other }
{
    let bytes = fetch(shelf, name)?;
    match read_image(alloc, bytes) {
        Ok(image) => Ok(image),
        Err(ImageFault::Rule { rule, at }) => Err(Status::Image { rule, at }),
        Err(ImageFault::Memory) => Err(Status::Memory),
    }
}
