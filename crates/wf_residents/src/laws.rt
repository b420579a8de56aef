//! Laws of moves of harts and of deletes of generations.
ghost use Rattle.wf_residents.specs.Laws.{DeadStands, DeletionRefusalsAgree, DeletionsCanBeMade, DeletionsCanBePlanned, LeavesCanBeUsedAgain, MigrationRefusalsAgree, MigrationStands, MigrationsCanBeMade, NewestAgrees, NothingComesByDeletes, QuiesceRefusalsAgree, ResidentRoomStands, StopStands};

/// The move of a hart is refused for what the table of calls says, in the state that words and
/// records stand for.
pub fn migration_refusals_agree()
    ensures { MigrationRefusalsAgree }
{}

/// The delete of a generation is refused for what the table of calls says, in the state that words
/// and records stand for.
pub fn deletion_refusals_agree()
    ensures { DeletionRefusalsAgree }
{}

/// The newest generation by the records is that of the state that words and records stand for.
pub fn newest_agrees()
    ensures { NewestAgrees }
{}

/// The move of a hart that is in a view to the newest generation is refused for what the table of
/// calls says, in the state that words and records stand for.
pub fn quiesce_refusals_agree()
    ensures { QuiesceRefusalsAgree }
{}

/// What words and records stand for stays, where there is room for one more resident.
pub fn resident_room_stands()
    ensures { ResidentRoomStands }
{}

/// The moves of harts that run can be planned and carried out, where words and records stand for a
/// state.
pub fn migrations_can_be_made()
    ensures { MigrationsCanBeMade }
{}

/// A hart moves by itself: where the changes of its move are made, words and records stand for the
/// state in which it has moved.
pub fn migration_stands()
    ensures { MigrationStands }
{}

/// A hart that stops is in no view: where it is taken out of that of its generation, words and
/// records stand for any state in which the hart has changed and runs no more.
pub fn stop_stands()
    ensures { StopStands }
{}

/// Deletes of generations can be planned, where words and records stand for a state.
pub fn deletions_can_be_planned()
    ensures { DeletionsCanBePlanned }
{}

/// Deletes of generations that live can be carried out, where words and records stand for a state.
pub fn deletions_can_be_made()
    ensures { DeletionsCanBeMade }
{}

/// The homes in the state in which a generation lives no more are those before, but for its own.
pub fn nothing_comes_by_deletes()
    ensures { NothingComesByDeletes }
{}

/// Where the view of a generation is taken out and its frames are given back, words and records
/// stand for the state in which it lives no more.
pub fn dead_stands()
    ensures { DeadStands }
{}

/// Where a page of data leaves, frames in which none lies can be used again as before.
pub fn leaves_can_be_used_again()
    ensures { LeavesCanBeUsedAgain }
{}
