//! Laws of patches that were built, for the machine that runs with them.
#![tactic(auto)]

mod laws;

pub use laws::fitting_patches_are_sound;
