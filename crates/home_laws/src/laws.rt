//! The laws.
ghost use Rattle.home_laws.specs.Laws.{HomesSettle, HomesStay};

/// Homes that were made for a state are settled in it.
pub fn homes_settle()
    ensures { HomesSettle }
{}

/// Homes that are settled stay, where nothing of what lies in frames changes.
pub fn homes_stay()
    ensures { HomesStay }
{}
