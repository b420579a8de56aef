//! Names: which address stands for a name, where an image and the patches behind it have names.
#![tactic(auto)]

mod among;
mod found;
mod names;
mod telling;

pub use found::Found;
pub use names::Names;
