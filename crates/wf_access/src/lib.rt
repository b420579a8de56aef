//! What loads, stores, atomic memory operations and reservations do with words, behind the walk of
//! their address.
#![tactic(auto)]

mod bytes;
mod choosing;
mod laws;
mod reserving;
mod storing;
mod words;

pub use bytes::FrameBytes;
pub use choosing::{
    core_reservation_of, core_stands, has_core_reserved, word_with, written_once_more,
};
pub use laws::{
    accesses_keep_mappings, answers_stand, last_looks_stand, looks_agree, puts_stand,
    reservations_agree, reservations_stay, reserves_are_kept, stores_are_counted, swaps_stand,
};
pub use reserving::{reservation_stands, reserve};
pub use storing::{store, swap};
pub use words::load_fields;
