//! What the words and records of a machine stand for: definitions, and laws of them.
#![tactic(auto)]

mod laws;
mod reservation;

pub use laws::{
    free_frames_are_counted, homes_are_given_up, homes_are_made, smallest_start_stands,
    starts_have_homes, sync_stands, tenants_are_counted,
};
pub use reservation::CoreReservation;
