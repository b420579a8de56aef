//! What each entry of a journal changes in the flat machine.
#![tactic(auto)]

mod changing;
mod noting;
mod paging;
mod trying;

pub use changing::change;
