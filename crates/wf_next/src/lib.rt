//! The next event of a hart, where it is determined.
#![tactic(auto)]

mod laws;

pub use laws::{harts_are_determined, next_events_are_determined};
