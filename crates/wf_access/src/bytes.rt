//! Bytes of frames.

/// Bytes of a frame: `width` of them, 1, 2, 4 or 8, from the place `at` of its page on, which is
/// below 4,096 and a multiple of their count. Frames are counted from 0.
#[derive(Clone, Copy, Debug, PartialEq, Eq)]
pub struct FrameBytes {
    pub frame: u32,
    pub at: u64,
    pub width: u8,
}
