//! A simulated process over words: what it is now, and its journal.
#![tactic(auto)]

mod body;
mod booting;
mod events;
mod finding;
mod hart;
mod meeting;
mod process;
mod reading;
mod reserving;
mod wholeness;
mod write;
mod writing;

pub use body::Body;
pub use finding::Found;
pub use hart::KeptHart;
pub use process::Process;
pub use write::Write;
