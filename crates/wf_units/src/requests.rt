//! Laws of whole calls of the kernel's own actor.
ghost use Rattle.wf_units.specs.Requests.{ClonesAreCalls, DeletionsAreCalls, PatchesAreCalls, RefusalsAreCalls};

use wf_sound::{allowed_can_be_made, entries_keep_sound, journals_keep_sound};

/// A request that is refused is one call, which changes nothing.
pub fn refusals_are_calls()
    ensures { RefusalsAreCalls }
{
    entries_keep_sound();
    journals_keep_sound();
    allowed_can_be_made();
}

/// A clone is one call, behind which the next generation is born.
pub fn clones_are_calls()
    ensures { ClonesAreCalls }
{
    entries_keep_sound();
    journals_keep_sound();
    allowed_can_be_made();
}

/// A deletion is one call, behind which the generation lives no more.
pub fn deletions_are_calls()
    ensures { DeletionsAreCalls }
{
    entries_keep_sound();
    journals_keep_sound();
    allowed_can_be_made();
}

/// A patch is one call, behind which its shared pages are mapped and a generation is born with it.
pub fn patches_are_calls()
    ensures { PatchesAreCalls }
{
    entries_keep_sound();
    journals_keep_sound();
    allowed_can_be_made();
}
