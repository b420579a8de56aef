//! Where words stand: word 0, then one word for each frame, then the words of each frame.
ghost use Rattle.std.specs.Prelude.{◌≡◌, ◌<◌, ◌≤◌};
ghost use Rattle.wf_frames.specs.Layout as layout;

use wf_outside::{MOST_FRAMES, PAGE_WORDS};

/// How many words a machine of so many frames has: word 0, a word for each frame, and the 512
/// words of each frame.
pub fn word_count(frames: u32) -> u64
    requires { frames ≤ MOST_FRAMES }
    ensures { result ≡ layout.word_count frames }
{
    1 + u64::from(frames) + PAGE_WORDS as u64 * u64::from(frames)
}

/// The number of the frame word of a frame.
pub fn frame_word_place(frame: u32) -> u64
    ensures { result ≡ layout.frame_word_place frame }
{
    1 + u64::from(frame)
}

/// The number of a word of a frame, by its place in the frame, from 0 to 511, in a machine of so
/// many frames.
pub fn word_place(frames: u32, frame: u32, i: usize) -> u64
    requires frames { frames ≤ MOST_FRAMES }
    requires frame { frame < frames }
    requires within { i < PAGE_WORDS }
    ensures value { result ≡ layout.word_place frames frame i }
    ensures there { result < layout.word_count frames }
{
    1 + u64::from(frames) + PAGE_WORDS as u64 * u64::from(frame) + i as u64
}
