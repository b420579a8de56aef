//! What a hart does with an instruction: what it wants, and what is left when it is done.
#![tactic(auto)]

mod finishing;
mod planning;

pub use finishing::{finish, finish_call};
pub use planning::plan;
