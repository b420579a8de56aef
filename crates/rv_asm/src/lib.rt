//! The assembler: from a source to the module that it means, or its first fault.
//!
//! The language stands in docs/ASSEMBLER.md. The first pass finds the labels, how long the sections
//! become and, for an object, where names are used; the second puts the bytes.
#![tactic(auto)]

mod assembling;
mod constants;
mod fault;
mod first_pass;
mod labels;
mod laws;
mod links;
mod named;
mod names;
mod second_pass;
mod settling;
mod sizes;
mod uses;

pub use assembling::assemble;
pub use fault::{AsmFault, AsmRule};
pub use laws::sections_are_as_long_as_surveyed;
