//! Where pages and nodes lie at the start of a run, and the frames that are taken for them.
#![tactic(auto)]

mod layout;
mod marking;

pub use layout::{nodes_at, pages_at, text_at, tree_of};
pub use marking::first_frames;
