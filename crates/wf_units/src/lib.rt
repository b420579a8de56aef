//! Whole units of harts and whole calls of the kernel's own actor, as laws of the flat machine.
#![tactic(auto)]

mod accesses;
mod agreeing;
mod calls;
mod instructions;
mod requests;
mod whole;

pub use accesses::{
    conditionals_are_units, loads_are_units, lost_conditionals_are_units,
    missed_conditionals_are_units, reserves_are_units, stores_are_units, swaps_are_units,
    text_loads_are_units, text_reserves_are_units,
};
pub use agreeing::{
    conditionals_agree, free_loads_agree, free_reserves_agree, last_loads_agree,
    last_reserves_agree, lost_conditionals_agree, missed_conditionals_agree, stores_agree,
    swaps_agree, text_loads_agree, text_reserves_agree,
};
pub use calls::{
    bytes_put_are_units, clones_are_units, deletions_are_units, exits_are_units,
    generations_told_are_units, maps_are_units, migrations_are_units, quiesces_are_units,
    refused_calls_are_units, unmaps_are_units,
};
pub use instructions::{
    faults_are_units, idles_are_units, illegal_words_are_units, lost_fetches_are_units,
    runs_are_units, traps_are_units,
};
pub use requests::{clones_are_calls, deletions_are_calls, patches_are_calls, refusals_are_calls};
pub use whole::harts_have_units;
