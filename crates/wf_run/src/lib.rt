//! Runs of scripts on images of a shelf, with patches of it.
#![tactic(auto)]

mod files;
mod laws;
mod running;
mod scripts;

pub use laws::answers_are_determined;
pub use running::{Ran, fetch_report, fetch_run};
