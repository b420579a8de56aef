//! The arithmetic of instructions, on 64-bit numbers.
#![tactic(auto)]

mod arithmetic;
mod op;

pub use arithmetic::{alu, amo, taken};
pub use op::{AluOp, AmoOp, Cond};
