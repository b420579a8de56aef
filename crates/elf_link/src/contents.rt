//! The bytes of a section.
ghost use Rattle.std.specs.Prelude.{◌≡◌, ◌<◌, ◌≤◌, IfOk, length, slice_index, replicate, vec_len};
ghost use Rattle.elf_read.specs.Elf.{LiesInFile};
ghost use Rattle.elf_link.specs.Links.{bytes_of, contents_of, size_of};

use elf_read::constants::{SHT_NOBITS, SHT_NULL};
use elf_read::{Elf, Section, Span};
use std::alloc::Global;
use wf_outside::Memory;

// So many bytes that are 0.
fn zeros(alloc: Global, count: usize) -> Result<Vec<u8>, Memory>
    ensures { IfOk result (λ bytes. bytes.items ≡ replicate count 0) }
{
    Ok(vec![in alloc; 0; count]?)
}

// The bytes of a section.
fn bytes_of(alloc: Global, object: &Elf, section: &Section) -> Result<Vec<u8>, Memory>
    requires { LiesInFile (length object.now.bytes) section.now }
    ensures bytes { IfOk result (λ bytes. bytes.items ≡ bytes_of object.now.bytes section.now) }
    ensures size { IfOk result (λ bytes. vec_len bytes ≡ section.now.sh_size) }
{
    if section.sh_type == SHT_NULL || section.sh_type == SHT_NOBITS {
        return zeros(alloc, section.sh_size as usize);
    }
    let span = Span {
        at: section.sh_offset,
        len: section.sh_size,
    };
    Ok(object.bytes(span).to_vec(alloc)?)
}

// The bytes of the section with this number.
pub fn contents(alloc: Global, object: &Elf, section: u32) -> Result<Vec<u8>, Memory>
    requires { section < length object.now.sections }
    ensures bytes { IfOk result (λ bytes. bytes.items ≡ contents_of object.now section) }
    ensures size { IfOk result (λ bytes. vec_len bytes ≡ size_of object.now section) }
{
    bytes_of(alloc, object, &object.sections()[section as usize])
}
