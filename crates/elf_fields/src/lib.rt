//! What a relocation does: the value of its type, over whole numbers, the field that takes it, and
//! the values that it refuses.
//!
//! RISC-V ELF psABI, "Relocations".
#![tactic(auto)]

mod bounds;
/// The numbers of the types.
pub mod constants;
mod field;
mod formats;
mod formula;
mod numbers;
mod relocation;

pub use bounds::Bounds;
pub use field::Field;
pub use formula::{Formula, Operands};
pub use relocation::{Relocation, relocation_of};
