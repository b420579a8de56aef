//! How a journal and its listings follow a script, and what holds of runs.
#![tactic(auto)]

mod laws;

pub use laws::runs_are_determined;
