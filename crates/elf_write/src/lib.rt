//! Modules of machine code and data, and the ELF files that hold them.
//!
//! System V ABI, "ELF Header", "Program Header", "Section Header", "Symbol Table", "String Table"
//! and "Relocation"; RISC-V ELF psABI, "File Header".
#![tactic(auto)]

mod constants;
mod layout;
mod module;
mod names;
mod numbers;
mod order;
mod parts;
mod records;
mod writing;

pub use layout::{Bases, bases_in};
pub use module::{Form, ModRela, ModSymbol, Module};
pub use writing::write;
