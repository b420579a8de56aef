//! The patches of a run, from their names to what they bring: for each name, in order, its file and
//! the object that this names are read from a shelf, and built over the image and the patches
//! before.
#![tactic(auto)]

mod base;
mod fetching;
mod reading;

pub use fetching::fetch_patches;
