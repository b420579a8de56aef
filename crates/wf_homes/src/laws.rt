//! Laws of homes, and of what words and records stand for.
ghost use Rattle.wf_homes.specs.Laws.{FreeFramesAreCounted, HomesAreGivenUp, HomesAreMade, SmallestStands, StartsHaveHomes, SyncStands, TenantsAreCounted};

/// What lies in frames is counted: a state takes as many frames as it has tenants, and none is
/// there twice.
pub fn tenants_are_counted()
    ensures { TenantsAreCounted }
{}

/// Homes are made: where frames suffice, whatever is there has a home, and nothing else has.
pub fn homes_are_made()
    ensures { HomesAreMade }
{}

/// A page of data that is gone gives its home up, and no frame is there twice after that.
pub fn homes_are_given_up()
    ensures { HomesAreGivenUp }
{}

/// The start of a run has homes, where frames suffice for it.
pub fn starts_have_homes()
    ensures { StartsHaveHomes }
{}

/// As many frames are no home and not worn as are neither used nor worn.
pub fn free_frames_are_counted()
    ensures { FreeFramesAreCounted }
{}

/// There are words and records that stand for the start of a program of one page of text, with one
/// hart.
pub fn smallest_start_stands()
    ensures { SmallestStands }
{}

/// Where a generation meets a page, one entry of its view is stored, and words and records stand
/// for what comes of that.
pub fn sync_stands()
    ensures { SyncStands }
{}
