//! The law that every hart has a unit.
ghost use Rattle.wf_units.specs.Whole.{HartsHaveUnits};

use wf_sound::{entries_keep_sound, journals_keep_sound};

/// Every hart of a sound machine that rests has a unit.
pub fn harts_have_units()
    ensures { HartsHaveUnits }
{
    entries_keep_sound();
    journals_keep_sound();
}
