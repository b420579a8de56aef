//! What an actor may do outside the kernel, in the flat machine, and what a hart asks it for.
#![tactic(auto)]

mod acting;
mod asking;
mod ending;
mod finding;
mod looking;
mod storing;
mod waiting;
mod wanting;

pub use acting::may_act;
pub use asking::{Asked, ask_of};
pub use ending::arch_after;
pub use finding::{data_of, has_met_page, has_right, is_here, is_text};
pub use storing::is_conditional;
pub use waiting::is_inside;
pub use wanting::{WantedAccess, access_in, want_in};
