//! The types of relocations (RISC-V ELF psABI, "Relocations").

/// 32 bits: the symbol's address and the addend.
pub const R_RISCV_32: u32 = 1;

/// 64 bits: the symbol's address and the addend.
pub const R_RISCV_64: u32 = 2;

/// The distance of a branch.
pub const R_RISCV_BRANCH: u32 = 16;

/// The distance of `jal`.
pub const R_RISCV_JAL: u32 = 17;

/// The distance of `auipc` and `jalr`.
pub const R_RISCV_CALL_PLT: u32 = 19;

/// The high part of a distance, in `auipc`.
pub const R_RISCV_PCREL_HI20: u32 = 23;

/// The low part of the distance whose high part is at the symbol.
pub const R_RISCV_PCREL_LO12_I: u32 = 24;
