//! The move of a hart.

/// A hart moves to a generation, and goes on there at an address.
#[derive(Clone, Copy, Debug, PartialEq, Eq)]
pub struct Migration {
    pub hart: u8,
    /// The address at which the hart goes on.
    pub next: u64,
    /// The generation that it moves to.
    pub generation: u64,
}
