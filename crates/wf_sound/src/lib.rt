//! The one invariant of the flat machine: what holds at every moment of every legal journal.
#![tactic(auto)]

mod laws;

pub use laws::{
    allowed_can_be_made, births_are_few, entries_keep_sound, journals_keep_sound,
    sound_is_within_limits, starts_are_sound,
};
