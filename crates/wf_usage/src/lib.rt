//! The words of the command line.
#![tactic(auto)]

mod command;
mod parsing;
mod sizes;
mod texts;

pub use command::{Command, command_of};
pub use sizes::{Sizes, USUAL};
