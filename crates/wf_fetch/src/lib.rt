//! What is fetched from a shelf: the bytes of a file, and images.
#![tactic(auto)]

mod fetching;
mod reading;

pub use fetching::{MAX_FILE, MAX_JOURNAL, fetch, fetch_image, fetch_within};
