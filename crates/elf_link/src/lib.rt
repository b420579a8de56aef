//! Relocation: the bytes of a section of an object file at its place in memory.
//!
//! System V ABI, "Relocation"; RISC-V ELF psABI, "Relocations".
#![tactic(auto)]

mod applying;
mod contents;
mod fault;
mod linking;
mod pairs;
mod places;
mod relocating;
mod symbols;
mod values;

pub use fault::LinkFault;
pub use places::are_low;
pub use relocating::relocate;
