//! What stands at the start of a run: laws of homes, and of words and records that stand for the
//! state of the start.
#![tactic(auto)]

mod laws;

pub use laws::{first_stand, homes_after_unmaps, homes_come_first, homes_stay};
