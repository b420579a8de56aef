//! Laws of births that are carried out.
ghost use Rattle.wf_created.specs.Created.{BirthRoomIsMade, BirthsCanBeCarriedOut, BirthsMayBe, CreateStands};

/// A birth that may be: where its changes are made and its pieces performed, words and records
/// stand for the state in which the generation is born.
pub fn create_stands()
    ensures { CreateStands }
{}

/// A birth that is refused for nothing by the records may be, in the state that words and records
/// stand for.
pub fn births_may_be()
    ensures { BirthsMayBe }
{}

/// The room that is made for a birth is what it takes.
pub fn birth_room_is_made()
    ensures { BirthRoomIsMade }
{}

/// A birth that may be can be carried out, where there is room for it.
pub fn births_can_be_carried_out()
    ensures { BirthsCanBeCarriedOut }
{}
