//! How the call that is open in the kernel goes on, in the flat machine.
#![tactic(auto)]

mod barred;
mod call;
mod going_on;
mod leaving;
mod moving_on;
mod refusing;
mod requesting;
mod todo;

pub use call::{OpenCall, Owed, Work};
pub use going_on::goes_on;
pub use moving_on::{call_after, is_idle_kernel};
