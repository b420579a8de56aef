//! Page table entries.
//!
//! RISC-V privileged ISA, "Sv39: Page-Based 39-bit Virtual-Memory System".
ghost use Rattle.std.specs.Prelude.{◌≡◌, Some};
ghost use Rattle.wf_sv39.specs.Entries as entries;

/// V: the entry is valid.
pub const VALID: u64 = 0x001;

/// R: the page may be read.
pub const READ: u64 = 0x002;

/// W: the page may be written.
pub const WRITE: u64 = 0x004;

/// X: the page may be executed.
pub const EXECUTE: u64 = 0x008;

/// U: the page is one of user mode.
pub const USER: u64 = 0x010;

/// A: the page was accessed.
pub const ACCESSED: u64 = 0x040;

/// D: the page was written.
pub const DIRTY: u64 = 0x080;

/// The page is private to one view. The standard leaves bits 8 and 9 to software.
pub const PRIVATE: u64 = 0x100;

/// What a leaf is for. Each has A set, and D exactly where it may be written.
#[derive(Clone, Copy, Debug, PartialEq, Eq)]
pub enum Leaf {
    /// A page of text, which its view alone has: V, R, X, U, A and bit 8.
    Private,
    /// A page of data that all views share and may read: V, R, U, A.
    Read,
    /// A page of data that all views share and may read and write: V, R, W, U, A, D.
    Write,
}

/// The entry that points to the node in a frame.
pub fn pte_node(frame: u32) -> u64
    ensures value { result ≡ entries.pte_node frame }
    ensures frame { entries.frame_of result ≡ frame }
{
    u64::from(frame) * (1 << 10) + VALID
}

/// The leaf for the page in a frame.
pub fn pte_leaf(frame: u32, leaf: Leaf) -> u64
    ensures value { result ≡ entries.pte_leaf frame leaf }
    ensures frame { entries.frame_of result ≡ frame }
    ensures leaf { entries.leaf_of result ≡ Some leaf }
{
    u64::from(frame) * (1 << 10) + leaf_bits(leaf)
}

/// The frame that an entry names.
pub fn frame_of(pte: u64) -> u64
    ensures { result ≡ entries.frame_of pte }
{
    pte / (1 << 10) % (1 << 44)
}

/// Which leaf an entry is, by its low ten bits; `None` where it is none of the three.
pub fn leaf_of(pte: u64) -> Option<Leaf>
    ensures { result ≡ entries.leaf_of pte }
{
    let bits = pte % (1 << 10);
    if bits == leaf_bits(Leaf::Private) {
        return Some(Leaf::Private);
    }
    if bits == leaf_bits(Leaf::Read) {
        return Some(Leaf::Read);
    }
    if bits == leaf_bits(Leaf::Write) {
        return Some(Leaf::Write);
    }
    None
}

// The bits of a leaf beside its frame.
fn leaf_bits(leaf: Leaf) -> u64
    ensures { result ≡ entries.leaf_bits leaf }
{
    match leaf {
        Leaf::Private => VALID | READ | EXECUTE | USER | ACCESSED | PRIVATE,
        Leaf::Read => VALID | READ | USER | ACCESSED,
        Leaf::Write => VALID | READ | WRITE | USER | ACCESSED | DIRTY,
    }
}
