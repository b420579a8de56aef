//! Sv39: page table entries, and the walk of an address through a page table.
//!
//! RISC-V privileged ISA, "Sv39: Page-Based 39-bit Virtual-Memory System".
#![tactic(auto)]

mod entry;
mod tree;
mod walking;

pub use entry::{
    ACCESSED, DIRTY, EXECUTE, Leaf, PRIVATE, READ, USER, VALID, WRITE, frame_of, leaf_of, pte_leaf,
    pte_node,
};
pub use tree::Walk;
pub use walking::walk;
