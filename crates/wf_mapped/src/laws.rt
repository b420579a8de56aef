//! Laws of mappings that are carried out.
ghost use Rattle.wf_mapped.specs.Mapped.{MapStands, MapsCanBeAskedAgain, MapsCanBeCarriedOut, MapsMayBeDone, RoomIsMade};
ghost use Rattle.wf_mapped.specs.Raising.{ChangedCanBeRaised, NewCanBeRaised, PerformedCanBeRaised};

/// A mapping that may be done: where its changes are made and its pieces performed, words and
/// records stand for the state in which its pages are mapped.
pub fn map_stands()
    ensures { MapStands }
{}

/// The room that is made for a mapping is what it takes.
pub fn room_is_made()
    ensures { RoomIsMade }
{}

/// A mapping that may be done can be carried out, where there is room for it.
pub fn maps_can_be_carried_out()
    ensures { MapsCanBeCarriedOut }
{}

/// A mapping that is refused for nothing by the records may be done in the state that words and
/// records stand for.
pub fn maps_may_be_done()
    ensures { MapsMayBeDone }
{}

/// Where the pages of a mapping are mapped, maps can be asked for still.
pub fn maps_can_be_asked_again()
    ensures { MapsCanBeAskedAgain }
{}

/// Each frame that is free can be in one more incarnation: in a new machine, and whatever changes
/// are made and pieces performed.
pub fn free_frames_can_be_raised()
    ensures at_first { NewCanBeRaised }
    ensures changed { ChangedCanBeRaised }
    ensures performed { PerformedCanBeRaised }
{}
