//! Maps of pages over words and records: what they are refused for, and what is done.
#![tactic(auto)]

mod blanks;
mod filling;
mod frames;
mod laws;
mod layout;
mod nodes;
mod planning;
mod refusing;
mod reserving;
mod room;

pub use blanks::Blanks;
pub use filling::{mark_nodes, words_of_node};
pub use frames::lowest_free;
pub use laws::{
    free_frames_agree, homes_are_laid_out, map_refusals_agree, need_is_counted, room_stands,
};
pub use layout::{Layout, Mapping, lay_out, other_frames, place_nodes};
pub use nodes::{MissingNode, NewNode, missing_node, missing_nodes, nodes_for_pages, tree_of};
pub use planning::{fill_map, plan_map, plan_with, prepare_map};
pub use refusing::{is_ending, no_frames, overlaps, stays};
pub use room::MapRoom;
