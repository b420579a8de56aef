//! Laws of the flat machine, over every legal journal.
#![tactic(auto)]

mod bytes;
mod conditionals;
mod dead;
mod holders;
mod refusals;
mod starts;
mod texts;

pub use bytes::{looks_are_latest, swaps_are_latest};
pub use conditionals::{conditionals_are_alone, conditionals_follow};
pub use dead::{dead_are_empty, dead_are_not_fetched};
pub use holders::{ending_is_for_holder, gone_is_untouched, holders_are_alone};
pub use refusals::{
    migrates_are_refused_inside, moves_are_outside, quiesces_are_refused_inside,
    refusals_are_of_table,
};
pub use starts::{fronts_are_legal, starts_are_quiet};
pub use texts::{fetches_are_text, generations_are_born, texts_are_told, texts_stay};
