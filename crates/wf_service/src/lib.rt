//! What the kernel does about the call of a hart, entry by entry, where no other hart is in a try
//! and nobody is inside.
#![tactic(auto)]

mod appending;
mod beginning;
mod carrying;
mod copying;
mod listing;
mod serving;

pub use appending::append;
pub use serving::serve_hart;
