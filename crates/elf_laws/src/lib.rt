//! Laws of the files that modules are written to.
#![tactic(auto)]

mod laws;

pub use laws::{files_are_apart, modules_are_read_back};
