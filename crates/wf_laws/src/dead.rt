//! Generations that are dead.
ghost use Rattle.wf_laws.specs.Dead.{DeadAreEmpty, DeadAreNotFetched};

/// Where a generation is deleted, no running hart is in it.
pub fn dead_are_empty()
    ensures { DeadAreEmpty }
{}

/// From the time that a generation is deleted, no hart fetches its text.
pub fn dead_are_not_fetched()
    ensures { DeadAreNotFetched }
{}
