//! Laws of whole instructions.
ghost use Rattle.wf_units.specs.Instructions.{FaultsAreUnits, IdlesAreUnits, IllegalWordsAreUnits, LostFetchesAreUnits, RunsAreUnits, TrapsAreUnits};

use wf_sound::journals_keep_sound;

/// An idle of a hart that has stopped is one unit, which changes nothing.
pub fn idles_are_units()
    ensures { IdlesAreUnits }
{}

/// An instruction that asks for no access and no call is one unit, which changes the hart alone.
pub fn runs_are_units()
    ensures { RunsAreUnits }
{
    journals_keep_sound();
}

/// A fetch that finds no word is one unit, which stops the hart.
pub fn lost_fetches_are_units()
    ensures { LostFetchesAreUnits }
{
    journals_keep_sound();
}

/// A word that is no instruction is one unit, which stops the hart.
pub fn illegal_words_are_units()
    ensures { IllegalWordsAreUnits }
{
    journals_keep_sound();
}

/// An instruction that wants a trap is one unit, which stops the hart.
pub fn traps_are_units()
    ensures { TrapsAreUnits }
{
    journals_keep_sound();
}

/// An access that cannot be made is one unit, which stops the hart.
pub fn faults_are_units()
    ensures { FaultsAreUnits }
{
    journals_keep_sound();
}
