//! Scripts: which hart takes which step, and when a patch comes in.
#![tactic(auto)]

mod command;
mod commands;
mod reading;
mod words;

pub use command::{Command, Script, ScriptFault};
pub use reading::read_script;
