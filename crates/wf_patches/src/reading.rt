//! The files and the objects of patches, in bytes.
ghost use Rattle.std.specs.Prelude.{◌≡◌, ◌<◌, ◌⊎◌, ◌^◌, IfErr, IfOk, Ok, Err, vec_len};
ghost use Rattle.wf_status.specs.declared.status.Status.{Status};
ghost use Rattle.wf_status.specs.declared.status.Status.TheVariants as statuses;
ghost use Rattle.wf_patches.specs.Needed.{MayFetchPatches};
ghost use Rattle.wf_patches.specs.Stages.{fault_status, file_in, object_in};

use elf_read::{Elf, ElfFault, Kind};
use patch_build::BuildFault;
use patch_file::{PatchFault, PatchFile, read_patch};
use std::alloc::Global;
use wf_status::{PatchWhy, Status};

// The file of the patch of this number in its bytes, or its first fault.
pub fn read_file(alloc: Global, patch: u64, bytes: &[u8]) -> Result<PatchFile, Status>
    ensures ok { IfOk result (λ file. file_in patch bytes.now ≡ Ok file) }
    ensures cause { IfErr result
        (λ status. (status ≡ statuses.Memory) ⊎ (file_in patch bytes.now ≡ Err status)) }
    ensures kind { IfErr result MayFetchPatches }
    ensures read { result ≡ Err Status.Shelf → ⊥ }
{
    match read_patch(alloc, bytes) {
        Ok(file) => Ok(file),
        Err(PatchFault::Line { line }) => Err(Status::Patch {
            patch,
            fault: PatchWhy::Text { line },
        }),
        Err(PatchFault::Memory) => Err(Status::Memory),
    }
}

// The object of the patch of this number in its bytes, of which there are fewer than 2^32, or the
// first rule that they break.
pub fn read_object(alloc: Global, patch: u64, bytes: Vec<u8>) -> Result<Elf, Status>
    requires { vec_len bytes < 2 ^ 32 }
    ensures ok { IfOk result (λ object. object_in patch bytes.items ≡ Ok object) }
    ensures cause { IfErr result
        (λ status. (status ≡ statuses.Memory) ⊎ (object_in patch bytes.items ≡ Err status)) }
    ensures kind { IfErr result MayFetchPatches }
    ensures read { result ≡ Err Status.Shelf → ⊥ }
{
    match Elf::read(alloc, bytes, Kind::Rel) {
        Ok(object) => Ok(object),
        Err(ElfFault::Rule { rule, at }) => Err(Status::Patch {
            patch,
            fault: PatchWhy::Elf { rule, at },
        }),
        Err(ElfFault::Memory) => Err(Status::Memory),
    }
}

// The answer for a patch that was not built.
pub fn fault_status(patch: u64, fault: BuildFault) -> Status
    ensures value { result ≡ fault_status patch fault }
    ensures kind { MayFetchPatches result }
    ensures read { result ≡ Status.Shelf → ⊥ }
{
    match fault {
        BuildFault::Section { index, rule } => Status::Patch {
            patch,
            fault: PatchWhy::Section { index, rule },
        },
        BuildFault::Common { symbol } => Status::Patch {
            patch,
            fault: PatchWhy::Common { symbol },
        },
        BuildFault::Area { pages } => Status::Patch {
            patch,
            fault: PatchWhy::Area { pages },
        },
        BuildFault::Line { line, rule } => Status::Patch {
            patch,
            fault: PatchWhy::Line { line, rule },
        },
        BuildFault::Link { group, index, rule } => Status::Patch {
            patch,
            fault: PatchWhy::Link { group, index, rule },
        },
        BuildFault::Memory => Status::Memory,
    }
}
