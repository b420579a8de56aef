//! Laws of runs with patches that were built: their jumps keep their words, and so no hart's move
//! to its own generation is refused for being inside a jump.
#![tactic(auto)]

mod built;
mod runs;

pub use built::{built_patches_have_built_jumps, files_bring_built_jumps, fitting_jumps_are_clear};
pub use runs::{harts_stay_on_text, jumps_keep_their_words, own_moves_of_runs_are_not_inside};
