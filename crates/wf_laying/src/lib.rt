//! Words that are stored at the start of a run: pages of text, pages of data and the nodes of the
//! first view, in frames one behind another.
#![tactic(auto)]

mod entries;
mod laying;

pub use laying::first_words;
