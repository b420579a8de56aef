//! Laws of mappings.
ghost use Rattle.wf_mapping.specs.Laws.{FreeFramesAgree, HomesAreLaidOut, MapRefusalsAgree, NeedIsCounted, RoomStands};

/// What words and records stand for stays, where there is more room in the records or less.
pub fn room_stands()
    ensures { RoomStands }
{}

/// The frames that are free by the records are those that are no home and not worn, where words and
/// records stand for a state.
pub fn free_frames_agree()
    ensures { FreeFramesAgree }
{}

/// The homes in the state in which pages are mapped are those before it, and those of the layout.
pub fn homes_are_laid_out()
    ensures { HomesAreLaidOut }
{}

/// A mapping needs as many frames as more are used in the state in which its pages are mapped.
pub fn need_is_counted()
    ensures { NeedIsCounted }
{}

/// Beside a bad range and a bad right, a mapping is refused for what the table of calls says, in the
/// state that words and records stand for.
pub fn map_refusals_agree()
    ensures { MapRefusalsAgree }
{}
