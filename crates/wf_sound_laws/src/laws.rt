//! The laws that rest on the invariant.
ghost use Rattle.wf_sound_laws.specs.Laws.{SoundConditionalsAreAlone, SoundDeadAreNotFetched, SoundEndingIsForHolder, SoundHartsAreDetermined, SoundHoldersAreAlone, SoundLooksAreLatest, SoundSwapsAreLatest};

use rv_inst::words_are_rows;
use wf_sound::entries_keep_sound;

/// A hart that is undisturbed does nothing but its next event.
pub fn sound_harts_are_determined()
    ensures { SoundHartsAreDetermined }
{
    entries_keep_sound();
}

/// A load of data reads in each byte what the latest store or atomic memory operation wrote to it
/// since its page was mapped, or else what the mapping brought, and without a mapping the byte that
/// was there at the start.
pub fn sound_looks_are_latest()
    ensures { SoundLooksAreLatest }
{
    words_are_rows();
    entries_keep_sound();
}

/// An atomic memory operation reads in each byte what the latest store or atomic memory operation
/// wrote to it since its page was mapped, or else what the mapping brought, and without a mapping
/// the byte that was there at the start.
pub fn sound_swaps_are_latest()
    ensures { SoundSwapsAreLatest }
{
    words_are_rows();
    entries_keep_sound();
}

/// From the time that a hart takes a page of data to the end of its try, no other hart takes the
/// page or reads or writes in it.
pub fn sound_holders_are_alone()
    ensures { SoundHoldersAreAlone }
{
    entries_keep_sound();
}

/// From the time that a page of data is Ending to its next mapping, no hart takes the page or reads
/// or writes in it but the one that held it then, and that not behind the end of its try.
pub fn sound_ending_is_for_holder()
    ensures { SoundEndingIsForHolder }
{}

/// Where a store-conditional writes, the latest load-reserved of its hart read as many bytes at the
/// same address, and nobody wrote in their page since.
pub fn sound_conditionals_are_alone()
    ensures { SoundConditionalsAreAlone }
{}

/// From the time that a generation is deleted, no hart fetches its text.
pub fn sound_dead_are_not_fetched()
    ensures { SoundDeadAreNotFetched }
{}
