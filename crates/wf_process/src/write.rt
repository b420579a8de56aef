//! What a store or an atomic operation writes.

/// Bytes that are written: so many, 1, 2, 4 or 8, at an address, which are the low ones of a value.
#[derive(Clone, Copy, Debug, PartialEq, Eq)]
pub struct Write {
    pub va: u64,
    pub width: u8,
    pub value: u64,
}
