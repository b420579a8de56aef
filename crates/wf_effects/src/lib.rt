//! What the calls of the kernel change in the flat machine: pages come and go, and generations.
#![tactic(auto)]

mod born;
mod deltas;
mod generations;
mod living;
mod mapping;
mod noting;
mod pages;
mod ranges;
mod reaches;
mod texts;

pub use born::{born_places, generation_born, here_numbers};
pub use deltas::{delta_of, pages_of};
pub use generations::{is_live, lowest_in, newest};
pub use living::{generation_dead, hart_moved};
pub use mapping::pages_mapped;
pub use noting::pages_noted;
pub use pages::{page_ending, page_gone, pages_going};
pub use ranges::{PageRun, first_absent, first_leaving, first_overlap, numbers_from, runs_of};
