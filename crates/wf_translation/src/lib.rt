//! What an address is in a generation, found out in words: by a walk of the generation's table.
#![tactic(auto)]

mod reading;
mod translating;
mod translation;

pub use reading::{fetch, number_at};
pub use translating::translate;
pub use translation::Translation;
