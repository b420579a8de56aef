//! Laws of homes that stay.
ghost use Rattle.wf_start.specs.Layout.{HomesComeFirst};
ghost use Rattle.wf_start.specs.Start.{FirstStand};
ghost use Rattle.wf_start.specs.Staying.{HomesAfterUnmap, HomesStay};

/// Homes stay where whatever is there has one, and nothing else has: none is made, and none is given
/// up.
pub fn homes_stay()
    ensures { HomesStay }
{}

/// The homes after an unmap are those that the entries of its pages make of the homes before: each
/// page gives its home up, worn or not, and all others stay.
pub fn homes_after_unmaps()
    ensures { HomesAfterUnmap }
{}

/// At the start of a run the first frames are the homes of whatever is there, in its order.
pub fn homes_come_first()
    ensures { HomesComeFirst }
{}

/// Words and records in which everything lies in its order, each in its frame, stand for a state at
/// the start of a run.
pub fn first_stand()
    ensures { FirstStand }
{}
