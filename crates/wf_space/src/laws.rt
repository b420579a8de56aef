//! Laws of plans.
ghost use Rattle.wf_space.specs.Alike.{HartsStand};
ghost use Rattle.wf_space.specs.Carried.{JobsCanBePlanned};
ghost use Rattle.wf_space.specs.Leaving.{ClearedStand, GoingStands, LeaveStands};
ghost use Rattle.wf_space.specs.Refusals.{RefusalsAgree};
ghost use Rattle.wf_space.specs.Unmapping.{UnmapStands, UnmapsCanBeCarriedOut};

/// A job that may be done in a state can be planned, where words and records stand for the state.
pub fn jobs_can_be_planned()
    ensures { JobsCanBePlanned }
{}

/// Where a page of data leaves that no hart holds and no generation has met, words and records stand
/// for the state in which it is gone.
pub fn leave_stands()
    ensures { LeaveStands }
{}

/// Where the leaves of a page are cleared, and no view has met it, words and records stand for the
/// state in which no generation has met it.
pub fn cleared_stand()
    ensures { ClearedStand }
{}

/// Where a page of data that is not ending is going in its record, words and records stand for the
/// state in which it is going.
pub fn going_stands()
    ensures { GoingStands }
{}

/// Whatever words and records stand for, they stand for any state that differs from it in the harts
/// and in who is inside the kernel alone, where the same harts run in each generation.
pub fn harts_stand()
    ensures { HartsStand }
{}

/// An unmap of pages that no hart holds: where its changes are made and its pieces performed, words
/// and records stand for the state in which the pages are gone.
pub fn unmap_stands()
    ensures { UnmapStands }
{}

/// An unmap of pages that no hart holds can be carried out, where words and records stand for a
/// state.
pub fn unmaps_can_be_carried_out()
    ensures { UnmapsCanBeCarriedOut }
{}

/// Beside a bad range, an unmap is refused for what the table of calls says, in the state that words
/// and records stand for.
pub fn refusals_agree()
    ensures { RefusalsAgree }
{}
