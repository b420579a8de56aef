//! The causes of traps, each with what the trap's value is.
//!
//! RISC-V privileged ISA, "Machine Cause Register".

/// A jump to a target that is no multiple of 4; the value is the target.
pub const INSTRUCTION_ADDRESS_MISALIGNED: u8 = 0;

/// A word that is no instruction; the value is the word.
pub const ILLEGAL_INSTRUCTION: u8 = 2;

/// An `ebreak`; the value is its pc.
pub const BREAKPOINT: u8 = 3;

/// A load or a load-reserved at an address that is no multiple of its width; the value is the
/// address.
pub const LOAD_ADDRESS_MISALIGNED: u8 = 4;

/// A store, a store-conditional or an atomic memory operation at an address that is no multiple of
/// its width; the value is the address.
pub const STORE_ADDRESS_MISALIGNED: u8 = 6;

/// A pc in a page that is no text; the value is the pc.
pub const INSTRUCTION_PAGE_FAULT: u8 = 12;

/// A load or a load-reserved at a page that may not be read; the value is the address.
pub const LOAD_PAGE_FAULT: u8 = 13;

/// A store, a store-conditional or an atomic memory operation at a page that may not be written;
/// the value is the address.
pub const STORE_PAGE_FAULT: u8 = 15;
