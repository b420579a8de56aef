//! The machine that runs scripts: whole units of harts, where no other hart is in a try, each an
//! instruction, a call, a trap or an idle; and whole calls of the kernel's own actor.
#![tactic(auto)]

mod actions;
mod finding;
mod housing;
mod loading;
mod machine;
mod meeting;
mod stepping;
mod storing;
mod wholeness;

pub use machine::Machine;
