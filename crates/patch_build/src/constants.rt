//! The numbers of the standard, and the sizes of patches.
//!
//! System V ABI, "Sections", `sh_flags`.

/// The flag of a section that may be written.
pub const SHF_WRITE: u64 = 0x1;

/// The flag of a section that takes memory.
pub const SHF_ALLOC: u64 = 0x2;

/// The flag of a section that may be run.
pub const SHF_EXECINSTR: u64 = 0x4;

/// The flag of a section that each thread has for itself.
pub const SHF_TLS: u64 = 0x400;

/// The flag of a section whose bytes are compressed.
pub const SHF_COMPRESSED: u64 = 0x800;

/// How many pages a patch has at most.
pub const MOST_PATCH_PAGES: u32 = 16_384;

/// The bytes of the jump that is put over a function.
pub const JUMP_SIZE: u64 = 8;
