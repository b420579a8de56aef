//! The check of a journal against an image: whether the machine, with the patches that the journal
//! names, allows each entry, and whether the final lines are those of its end.
#![tactic(auto)]

mod checking;
mod files;
mod laws;
mod rules;
mod wholeness;

pub use checking::fetch_checked;
pub use laws::checks_are_determined;
