//! The header of the file.
ghost use Rattle.std.specs.Prelude.{◌≡◌, ◌≤◌, ◌+◌, length};
ghost use Rattle.elf_read.specs.Records.{header_of};

use crate::constants::{
    E_ENTRY_PLACE, E_FLAGS_PLACE, E_MACHINE_PLACE, E_PHENTSIZE_PLACE, E_PHNUM_PLACE, E_PHOFF_PLACE,
    E_SHENTSIZE_PLACE, E_SHNUM_PLACE, E_SHOFF_PLACE, E_SHSTRNDX_PLACE, E_TYPE_PLACE, EHSIZE,
};
use crate::fields::{u16_at, u32_at, u64_at};

// The header of the file, with the names of ELF64, but for the bytes of e_ident.
//
// System V ABI, "ELF Header".
#[derive(Clone, Copy)]
pub struct Header {
    pub e_type: u16,
    pub e_machine: u16,
    pub e_entry: u64,
    pub e_phoff: u64,
    pub e_shoff: u64,
    pub e_flags: u32,
    pub e_phentsize: u16,
    pub e_phnum: u16,
    pub e_shentsize: u16,
    pub e_shnum: u16,
    pub e_shstrndx: u16,
}

// The header of a file that is long enough for one.
#[tactic(auto, unfolding(crate::specs::Records::header_of))]
pub fn header_of(bytes: &[u8]) -> Header
    requires { EHSIZE ≤ length bytes.now }
    ensures { result ≡ header_of bytes.now }
{
    Header {
        e_type: u16_at(bytes, E_TYPE_PLACE),
        e_machine: u16_at(bytes, E_MACHINE_PLACE),
        e_entry: u64_at(bytes, E_ENTRY_PLACE),
        e_phoff: u64_at(bytes, E_PHOFF_PLACE),
        e_shoff: u64_at(bytes, E_SHOFF_PLACE),
        e_flags: u32_at(bytes, E_FLAGS_PLACE),
        e_phentsize: u16_at(bytes, E_PHENTSIZE_PLACE),
        e_phnum: u16_at(bytes, E_PHNUM_PLACE),
        e_shentsize: u16_at(bytes, E_SHENTSIZE_PLACE),
        e_shnum: u16_at(bytes, E_SHNUM_PLACE),
        e_shstrndx: u16_at(bytes, E_SHSTRNDX_PLACE),
    }
}
