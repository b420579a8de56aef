//! Reports of runs: entries with listings at their places, and the final lines.
#![tactic(auto)]

mod listing;
mod listings;
mod reporting;

pub use listing::Listing;
pub use listings::{mem_listing, regs_listing};
pub use reporting::report;
