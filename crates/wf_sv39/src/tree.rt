//! How a walk ends.
use arrayvec::ArrayVec;

/// How the walk of an address through a page table ends.
#[derive(Drop)]
pub enum Walk {
    /// It has a leaf, and the three words of its path: a pointer in the root, one in the node of
    /// level 1, and the leaf itself.
    Leaf { pte: u64, path: ArrayVec<u64, 3> },
    /// The first entry on its path that is 0 is that of the node of this level, 2, 1 or 0.
    Missing { level: u8 },
    /// Bits 63 to 39 of the address differ from bit 38.
    Far,
}
