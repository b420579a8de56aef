//! Laws of whole loads, stores and atomic accesses.
ghost use Rattle.wf_units.specs.Accessing.{ConditionalsAreUnits, LoadsAreUnits, LostConditionalsAreUnits, MissedConditionalsAreUnits, ReservesAreUnits, StoresAreUnits, SwapsAreUnits, TextLoadsAreUnits, TextReservesAreUnits};

use wf_sound::journals_keep_sound;

/// A load from own text is one unit, which changes the hart alone.
pub fn text_loads_are_units()
    ensures { TextLoadsAreUnits }
{
    journals_keep_sound();
}

/// A load from data is one unit, with its page met first and taken where it has to be.
pub fn loads_are_units()
    ensures { LoadsAreUnits }
{
    journals_keep_sound();
}

/// A load-reserved from own text is one unit, which leaves no reservation.
pub fn text_reserves_are_units()
    ensures { TextReservesAreUnits }
{
    journals_keep_sound();
}

/// A load-reserved from data is one unit, which leaves its reservation.
pub fn reserves_are_units()
    ensures { ReservesAreUnits }
{
    journals_keep_sound();
}

/// A store is one unit, with its page met first where it has to be.
pub fn stores_are_units()
    ensures { StoresAreUnits }
{
    journals_keep_sound();
}

/// A store-conditional whose reservation stands is one unit, which writes.
pub fn conditionals_are_units()
    ensures { ConditionalsAreUnits }
{
    journals_keep_sound();
}

/// A store-conditional without a reservation for its address and width is one unit, which misses.
pub fn lost_conditionals_are_units()
    ensures { LostConditionalsAreUnits }
{
    journals_keep_sound();
}

/// A store-conditional whose reservation does not stand is one unit, which misses.
pub fn missed_conditionals_are_units()
    ensures { MissedConditionalsAreUnits }
{
    journals_keep_sound();
}

/// An atomic memory operation is one unit, which reads and writes.
pub fn swaps_are_units()
    ensures { SwapsAreUnits }
{
    journals_keep_sound();
}
