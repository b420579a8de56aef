//! Births of generations, carried out: what words and records stand for then.
#![tactic(auto)]

mod carrying;
mod laws;

pub use carrying::carry_create;
pub use laws::{birth_room_is_made, births_can_be_carried_out, births_may_be, create_stands};
