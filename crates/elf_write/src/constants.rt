//! The rights and attributes of a section (System V ABI, "Section Header", `sh_flags`).

pub const SHF_WRITE: u64 = 1;

pub const SHF_ALLOC: u64 = 2;

pub const SHF_EXECINSTR: u64 = 4;

pub const SHF_INFO_LINK: u64 = 0x40;
