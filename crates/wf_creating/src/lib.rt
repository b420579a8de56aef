//! Births of generations over words and records: what they are refused for, and what is done.
#![tactic(auto)]

mod filling;
mod laws;
mod layout;
mod parents;
mod planning;
mod refusing;
mod room;

pub use laws::{
    birth_need_is_counted, birth_room_stands, create_refusals_agree, pages_are_put,
    view_is_laid_out,
};
pub use layout::{
    Birth, lay_out_birth, nodes_of_reach, number_of_birth, place_texts, root_of, table_of,
};
pub use parents::{
    as_numbers, numbers_here, parent_jumps, parent_patches, parent_text, places_of, text_numbers,
};
pub use planning::{fill_create, plan_create, prepare_create};
pub use refusing::{has_view, no_more_views};
pub use room::BirthRoom;
