//! Laws of whole accesses in words.
ghost use Rattle.wf_access.specs.Laws.{AnswersKeepMappings, AnswersStand, LastLooksKeepMappings, LastLooksStand, LooksAgree, LooksAndMissesAnswer, PutsStand, ReservationsAgree, ReservationsStay, ReservesAreKept, StoresAreCounted, StoresKeepMappings, SwapsStand};

/// What is loaded at an address, in the frame that its walk found, is what a load there reads.
pub fn looks_agree()
    ensures { LooksAgree }
{}

/// After a store words and records stand for the state after the whole store.
pub fn puts_stand()
    ensures { PutsStand }
{}

/// So they do after an atomic memory operation.
pub fn swaps_stand()
    ensures { SwapsStand }
{}

/// Where a hart takes no page, no word changes: words and records stand for the state after the
/// whole of a load, or of a store-conditional that misses.
pub fn answers_stand()
    ensures stand { AnswersStand }
    ensures answers { LooksAndMissesAnswer }
{}

/// So it is where a hart takes the page for a load, at the last count of writes.
pub fn last_looks_stand()
    ensures { LastLooksStand }
{}

/// A store adds one to the count of writes, below the last, and changes no other field of the frame
/// word. At the last count its bytes are stored, and no field changes.
pub fn stores_are_counted()
    ensures { StoresAreCounted }
{}

/// A reservation that a hart keeps stands in words exactly where the one of the state stands.
pub fn reservations_agree()
    ensures { ReservationsAgree }
{}

/// What a load-reserved leaves in words is kept of what it leaves in the state.
pub fn reserves_are_kept()
    ensures { ReservesAreKept }
{}

/// Reservations stay kept where no mapping changes.
pub fn reservations_stay()
    ensures { ReservationsStay }
{}

/// No whole access changes a mapping: none of those that take a page, and none that take none.
pub fn accesses_keep_mappings()
    ensures stores { StoresKeepMappings }
    ensures last_looks { LastLooksKeepMappings }
    ensures answers { AnswersKeepMappings }
{}
