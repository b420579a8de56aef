//! Lines, words and numbers of the project's text formats, read and written.
#![tactic(auto)]

mod lines;
mod names;
mod numbers;
mod writing;

pub use lines::{split_line, split_word, without_spaces};
pub use names::name_of;
pub use numbers::{any_hex_of, decimal_of, hex_of, last_hex_of};
pub use writing::{push_decimal, push_hex, push_last_hex};
