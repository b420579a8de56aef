//! The lines of an assembler's source: what each says, before any name is known.
//!
//! The language stands in docs/ASSEMBLER.md. Instructions are written as `rv_encode` shows them.
#![tactic(auto)]

mod atomics;
mod bytes;
mod directives;
mod instructions;
mod lines;
mod numbers;
mod operands;
mod registers;
mod shorts;
mod statement;

pub use lines::{Line, read_line};
pub use statement::{SectionId, Statement, Use};
