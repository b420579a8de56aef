//! The files of patches: the object of a patch, and which function takes the place of which.
#![tactic(auto)]

mod lines;
mod patch;
mod reading;
mod words;

pub use patch::{PatchFault, PatchFile, Replace};
pub use reading::read_patch;
