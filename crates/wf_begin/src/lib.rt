//! Memory at the start of a run: the first view and the first records, and `boot`, which makes words
//! and records that stand for the state at the start of an image.
#![tactic(auto)]

mod booting;
mod recording;
mod viewing;

pub use booting::boot;
