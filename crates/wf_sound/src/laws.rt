//! Laws of the invariant.
ghost use Rattle.wf_sound.specs.Laws.{AllowedCanBeMade, BirthsAreFew, EntriesKeepSound, JournalsKeepSound, SoundIsWithinLimits, StartsAreSound};

use rv_inst::words_are_rows;

/// The invariant holds at the start of every run.
pub fn starts_are_sound()
    ensures { StartsAreSound }
{}

/// An entry that is allowed keeps the invariant.
pub fn entries_keep_sound()
    ensures { EntriesKeepSound }
{}

/// The invariant holds after every legal journal that begins where it holds.
pub fn journals_keep_sound()
    ensures { JournalsKeepSound }
{}

/// Where the invariant holds, and births are left for all frames, an entry that is allowed can be
/// made: what the functions that make its change ask for holds.
pub fn allowed_can_be_made()
    ensures { AllowedCanBeMade }
{
    words_are_rows();
}

/// Where the invariant holds, the state is within what verdicts ask for.
pub fn sound_is_within_limits()
    ensures { SoundIsWithinLimits }
{}

/// Over a legal journal births rise by no more than there are entries, and frames.
pub fn births_are_few()
    ensures { BirthsAreFew }
{}
