//! From instructions to words and texts, and the jump that a patch puts over a function.
#![tactic(auto)]

mod codes;
mod encoding;
mod formats;
mod jumping;
mod ranges;
mod texts;

pub use encoding::encode;
pub use jumping::jump;
pub use texts::{alu_name, amo_name, branch_name, dis, imm_name};
