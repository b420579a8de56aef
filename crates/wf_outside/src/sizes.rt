//! The sizes of pages, of addresses and of machines.

/// The bytes of a page (RISC-V privileged ISA, "Sv39").
pub const PAGE_SIZE: u64 = 4096;

/// The words of 64 bits in a page.
pub const PAGE_WORDS: usize = 512;

/// How many pages the addresses have that are used: those below 2^38, the lower half of Sv39's.
pub const ADDRESS_PAGES: u32 = 0x400_0000;

/// The first address past those of data and text: the harts' stacks begin here.
pub const DATA_END: u64 = 0x3E_0000_0000;

/// The page at `DATA_END`.
pub const DATA_END_PAGE: u32 = 0x3E0_0000;

/// How many pages an image has at most, where a page counts once for each segment that meets it.
pub const MOST_IMAGE_PAGES: u64 = 65_536;

/// How many frames a machine has at least.
pub const LEAST_FRAMES: u32 = 64;

/// How many frames a machine has at most.
pub const MOST_FRAMES: u32 = 65_536;

/// The highest count of writes of a frame: its word has 39 bits for it.
pub const MOST_WRITES: u64 = 0x7F_FFFF_FFFF;

/// The highest incarnation of a frame: its word has 23 bits for it.
pub const MOST_BIRTHS: u64 = 0x7F_FFFF;
