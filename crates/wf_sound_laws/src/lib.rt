//! Laws of the flat machine, over every legal journal from a state that is sound.
#![tactic(auto)]

mod laws;

pub use laws::{
    sound_conditionals_are_alone, sound_dead_are_not_fetched, sound_ending_is_for_holder,
    sound_harts_are_determined, sound_holders_are_alone, sound_looks_are_latest,
    sound_swaps_are_latest,
};
