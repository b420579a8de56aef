//! The files that the assembler's sources mean, which a shelf holds.
#![tactic(auto)]

mod fetching;

pub use fetching::{fault_status, fetch_file};
