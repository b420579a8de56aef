//! Laws of moves in runs with patches: why no hart that calls goes on inside a jump of its own text.
#![tactic(auto)]

mod moves;

pub use moves::{calls_go_on_outside, own_moves_are_not_inside};
