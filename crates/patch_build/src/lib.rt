//! Building of patches: what a patch brings to a running image. That is the pages of its object,
//! each section at its place and relocated; the jumps that lead from what it replaces to what takes
//! its place; and its names, for the patches behind it.
//!
//! System V ABI, "Sections" and "Symbol Table"; RISC-V ELF psABI, "Relocations".
#![tactic(auto)]

mod area;
mod building;
mod built;
mod checking;
pub mod constants;
mod fault;
mod jumps;
mod laws;
mod layout;
mod lines;
mod linking;
mod naming;
mod paging;
mod region;

pub use area::Area;
pub use building::build;
pub use built::Built;
pub use fault::BuildFault;
pub use laws::builds_are_same;
pub use patch_rules::{LineRule, LinkRule, SectionRule};
