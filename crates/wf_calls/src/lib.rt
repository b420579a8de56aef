//! The calls of programs: what a hart asks of the kernel, and the numbers of what is refused.
#![tactic(auto)]

mod answers;
mod asking;
mod numbers;

pub use answers::number_of;
pub use asking::{Ask, Right, read_call};
pub use numbers::{CREATE, DELETE, EXIT, MAP, MIGRATE, OWN_GENERATION, PUT_BYTE, QUIESCE, UNMAP};
