//! What an address is in a generation.

/// What the walk of an address finds. Frames are counted from 0.
#[derive(Clone, Copy, Debug, PartialEq, Eq)]
pub enum Translation {
    /// A page of the generation's text, which lies in this frame.
    Text { frame: u32 },
    /// A page of data that the generation has met: the frame in which it lies, and whether it may
    /// be written.
    Data { frame: u32, write: bool },
    /// There is no leaf: the page is no text of the generation, and no page of data that it has
    /// met.
    Missing,
}
