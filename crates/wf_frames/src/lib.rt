//! Words and frames: where each word of a machine stands, the fields of a frame word, and which
//! frames are free.
#![tactic(auto)]

mod fields;
mod frames;
mod laws;
mod layout;
mod state;
mod words;

pub use fields::{ALL_BUT_LIVE, ALL_BUT_TAKEN, FrameWord, frame_fields, frame_word};
pub use frames::Frames;
pub use laws::frame_words_change;
pub use layout::{frame_word_place, word_count, word_place};
pub use state::{Frame, FrameState, TakeFault};
pub use words::Words;
