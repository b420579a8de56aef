//! What a request to the kernel is refused for.
#![tactic(auto)]

mod frames;
mod places;
mod refusals;
mod requests;
mod verdict;
mod work;

pub use requests::{Request, request_of, requested_by};
pub use verdict::{MOST_GENERATIONS, MOST_PAGES, refusal_of};
pub use work::{Todo, done_about};
