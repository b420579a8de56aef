//! The image in the bytes of a file.
ghost use Rattle.std.specs.Prelude.{◌≡◌, ◌<◌, ◌^◌, IfOk, IfErr, OnOk, Some, None, vec_len};
ghost use Rattle.elf_read.specs.declared.elf.Kind.TheVariants.{Exec};
ghost use Rattle.elf_read.specs.Rules.{first_fault};
ghost use Rattle.wf_fetch.specs.Loaded.{elf_of, loaded};
ghost use Rattle.wf_fetch.specs.Reading.{IsFileFault, IsImageFault};

use elf_load::{LoadFault, load};
use elf_read::{Elf, ElfFault, Kind};
use std::alloc::Global;
use wf_outside::Image;
use wf_status::ImageRule;

/// Why bytes are no image.
#[derive(Clone, Copy, Debug, PartialEq, Eq)]
pub enum ImageFault {
    /// The first rule that they break, and its place, in bytes from their start.
    Rule { rule: ImageRule, at: u64 },
    /// Memory ran out.
    Memory,
}

// What stands in the bytes, or the first rule of the file format that they break.
fn read(alloc: Global, bytes: Vec<u8>) -> Result<Elf, ImageFault>
    requires { vec_len bytes < 2 ^ 32 }
    ensures ok { IfOk result (λ elf. elf ≡ elf_of bytes.items) }
    ensures passed { OnOk result (first_fault Exec bytes.items ≡ None) }
    ensures fault { IfErr result (IsFileFault bytes.items) }
{
    match Elf::read(alloc, bytes, Kind::Exec) {
        Ok(elf) => Ok(elf),
        Err(ElfFault::Rule { rule, at }) => Err(ImageFault::Rule {
            rule: ImageRule::from(rule),
            at,
        }),
        Err(ElfFault::Memory) => Err(ImageFault::Memory),
    }
}

/// The image in the bytes of a file, of which there are fewer than 2^32, or the first rule that
/// they break.
pub fn read_image(alloc: Global, bytes: Vec<u8>) -> Result<Image, ImageFault>
    requires { vec_len bytes < 2 ^ 32 }
    ensures ok { IfOk result (λ image. loaded bytes.items ≡ Some image) }
    ensures fault { IfErr result (IsImageFault bytes.items) }
{
    let elf = read(alloc, bytes)?;
    match load(alloc, &elf) {
        Ok(image) => Ok(image),
        Err(LoadFault::Rule { rule, at }) => Err(ImageFault::Rule {
            rule: ImageRule::from(rule),
            at,
        }),
        Err(LoadFault::Memory) => Err(ImageFault::Memory),
    }
}
