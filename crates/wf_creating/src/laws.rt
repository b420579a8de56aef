//! Laws of births.
ghost use Rattle.wf_creating.specs.Laws.{BirthNeedIsCounted, BirthRoomStands, CreateRefusalsAgree, ViewIsLaidOut};
ghost use Rattle.wf_creating.specs.Splices.{PagesArePut};

/// What words and records stand for stays, where there is more room in the records for views, or
/// less.
pub fn birth_room_stands()
    ensures { BirthRoomStands }
{}

/// The homes in the state in which a generation is born are those before it, and those of its text
/// and its nodes.
pub fn view_is_laid_out()
    ensures { ViewIsLaidOut }
{}

/// A birth needs as many frames as more are used in the state in which the generation is born.
pub fn birth_need_is_counted()
    ensures { BirthNeedIsCounted }
{}

/// A birth is refused for what the table of calls says, in the state that words and records stand
/// for.
pub fn create_refusals_agree()
    ensures { CreateRefusalsAgree }
{}

/// A text that is spliced with a patch is its pages and those of the patch, each with the jumps of
/// the patch put over it, as a copy puts them.
pub fn pages_are_put()
    ensures { PagesArePut }
{}
