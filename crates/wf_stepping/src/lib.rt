//! Whole units of harts over a process: of a hart that has stopped, of one that a trap stops, of an
//! instruction that asks for no access and no call, and of a load from text.
#![tactic(auto)]

mod loading;
mod running;
mod stopping;

pub use loading::{Load, load_text};
pub use running::run;
pub use stopping::{fault, idle, lose_fetch, trap};
