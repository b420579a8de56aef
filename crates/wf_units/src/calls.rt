//! Laws of whole calls of harts.
ghost use Rattle.wf_units.specs.Calls.{BytesPutAreUnits, ClonesAreUnits, DeletionsAreUnits, ExitsAreUnits, GenerationsToldAreUnits, MapsAreUnits, MigrationsAreUnits, QuiescesAreUnits, RefusedCallsAreUnits, UnmapsAreUnits};

use wf_sound::{entries_keep_sound, journals_keep_sound};

/// A call that is refused is one unit, which changes the hart alone.
pub fn refused_calls_are_units()
    ensures { RefusedCallsAreUnits }
{
    entries_keep_sound();
    journals_keep_sound();
}

/// An exit is one unit, which stops the hart.
pub fn exits_are_units()
    ensures { ExitsAreUnits }
{
    entries_keep_sound();
    journals_keep_sound();
}

/// The call that puts a byte is one unit, which changes the hart alone.
pub fn bytes_put_are_units()
    ensures { BytesPutAreUnits }
{
    entries_keep_sound();
    journals_keep_sound();
}

/// The call that tells the own generation is one unit, which changes the hart alone.
pub fn generations_told_are_units()
    ensures { GenerationsToldAreUnits }
{
    entries_keep_sound();
    journals_keep_sound();
}

/// A map is one unit, behind which its pages are mapped.
pub fn maps_are_units()
    ensures { MapsAreUnits }
{
    entries_keep_sound();
    journals_keep_sound();
}

/// An unmap is one unit, behind which its pages are gone.
pub fn unmaps_are_units()
    ensures { UnmapsAreUnits }
{
    entries_keep_sound();
    journals_keep_sound();
}

/// A migration is one unit, behind which the hart is in the generation.
pub fn migrations_are_units()
    ensures { MigrationsAreUnits }
{
    entries_keep_sound();
    journals_keep_sound();
}

/// A quiesce is one unit, behind which the hart is in the newest generation.
pub fn quiesces_are_units()
    ensures { QuiescesAreUnits }
{
    entries_keep_sound();
    journals_keep_sound();
}

/// A deletion is one unit, behind which the generation lives no more.
pub fn deletions_are_units()
    ensures { DeletionsAreUnits }
{
    entries_keep_sound();
    journals_keep_sound();
}

/// A clone is one unit, behind which the next generation is born.
pub fn clones_are_units()
    ensures { ClonesAreUnits }
{
    entries_keep_sound();
    journals_keep_sound();
}
