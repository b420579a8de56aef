//! The commands of the program.
#![tactic(auto)]

mod answering;
mod laws;
mod making;
mod output;

pub use answering::top;
pub use laws::answers_are_determined;
