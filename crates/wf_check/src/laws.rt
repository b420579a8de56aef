//! Laws of checks.
ghost use Rattle.wf_check.specs.Laws.{AcceptedAreCalledFor, ChecksAreOne, CountsAreOne};

/// An image and a journal, with the files of the patches that it names, call for at most one
/// answer; a journal that is accepted has one number of entries, and is called for.
pub fn checks_are_determined()
    ensures answers { ChecksAreOne }
    ensures counts { CountsAreOne }
    ensures called { AcceptedAreCalledFor }
{}
