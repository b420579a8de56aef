//! Instructions: their words, what they want, and what they mean.
#![tactic(auto)]

mod arch;
/// The causes of traps.
pub mod causes;
mod decoding;
mod fields;
mod inst;
mod laws;
mod want;

pub use arch::Arch;
pub use decoding::decode;
pub use fields::bits;
pub use inst::Inst;
pub use laws::{accesses_have_widths, words_are_rows};
pub use want::Want;
