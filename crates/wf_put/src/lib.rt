//! Putting what a command writes: into a sink, in pieces.
#![tactic(auto)]

mod putting;

pub use putting::{MAX_PIECE, put_all};
