//! Maps of pages, carried out: what words and records stand for then.
#![tactic(auto)]

mod carrying;
mod laws;

pub use carrying::{carry_map, map_pages};
pub use laws::{
    free_frames_can_be_raised, map_stands, maps_can_be_asked_again, maps_can_be_carried_out,
    maps_may_be_done, room_is_made,
};
