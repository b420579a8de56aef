//! Births of generations with a patch, over words and records: what they are refused for, and where
//! all lies that comes with a patch.
#![tactic(auto)]

mod brought;
mod jumps;
mod laws;
mod layout;
mod refusing;

pub use laws::unfit_patches_agree;
pub use layout::{Patched, lay_out_patch};
pub use refusing::{patch_refusal, unfit_patch};
