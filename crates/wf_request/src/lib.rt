//! What the kernel does about a request of its own actor, entry by entry, where no hart is in a try
//! and nobody is inside.
#![tactic(auto)]

mod patching;
mod serving;

pub use serving::serve_kernel;
