//! Who is in which view: harts that move between generations and stop, and generations that are
//! deleted.
#![tactic(auto)]

mod carrying;
mod deleting;
mod laws;
mod migrating;
mod migration;
mod refusing;
mod residing;

pub use carrying::{carry_deletion, carry_migration, stop_hart};
pub use deleting::{fill_deletion, plan_deletion, prepare_deletion};
pub use laws::{
    dead_stands, deletion_refusals_agree, deletions_can_be_made, deletions_can_be_planned,
    leaves_can_be_used_again, migration_refusals_agree, migration_stands, migrations_can_be_made,
    newest_agrees, nothing_comes_by_deletes, quiesce_refusals_agree, resident_room_stands,
    stop_stands,
};
pub use migrating::{fill_migration, plan_migration, prepare_migration, quiesce_of};
pub use migration::Migration;
