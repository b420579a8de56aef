//! The checker of journals: whether the flat machine allows each entry, and how a journal ends.
#![tactic(auto)]

mod fault;
mod replaying;
mod stepping;

pub use fault::ReplayFault;
pub use replaying::replay;
