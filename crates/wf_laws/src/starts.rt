//! Fronts of journals, and the state at the start of a run.
ghost use Rattle.wf_laws.specs.Starts.{FrontsAreLegal, StartsAreQuiet};

/// What a legal journal begins with is a legal journal.
pub fn fronts_are_legal()
    ensures { FrontsAreLegal }
{}

/// At the start of every run the premises of the laws on the state hold: nobody holds a page, no
/// hart has a reservation, each page of data has 512 words and was born before the next birth,
/// generations stand by their numbers, and each hart is in one that lives.
pub fn starts_are_quiet()
    ensures { StartsAreQuiet }
{}
