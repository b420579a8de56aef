//! How a command of the program ends: its status, with the exit status and the line that say so.
#![tactic(auto)]

mod entries;
mod patches;
mod rules;
mod sources;
mod status;

pub use entries::EntryRule;
pub use patches::PatchWhy;
pub use rules::ImageRule;
pub use sources::SourceRule;
pub use status::{LimitKind, Status, Unbuilt};
