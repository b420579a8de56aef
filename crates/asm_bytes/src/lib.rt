//! What one statement of the assembler's language takes and puts: how many bytes, before any name
//! is known, and which.
//!
//! The language stands in docs/ASSEMBLER.md, and `asm_lines` reads its lines.
#![tactic(auto)]

mod fault;
mod instructions;
mod laws;
mod numbers;
mod putting;
mod sizes;

pub use fault::PutFault;
pub use laws::{call_leads, code_decodes, la_finds, li_loads};
pub use putting::{put, put_has_its_size};
pub use sizes::{puts_nothing, size_of};
