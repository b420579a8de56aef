//! Laws of the states behind whole accesses.
ghost use Rattle.wf_units.specs.Agreeing.{ConditionalsAgree, FreeLoadsAgree, FreeReservesAgree, LastLoadsAgree, LastReservesAgree, LostConditionalsAgree, MissedConditionalsAgree, StoresAgree, SwapsAgree, TextLoadsAgree, TextReservesAgree};

/// The state behind a load from own text, change by change, is that behind its unit.
pub fn text_loads_agree()
    ensures { TextLoadsAgree }
{}

/// The state behind a load-reserved from own text, change by change, is that behind its unit.
pub fn text_reserves_agree()
    ensures { TextReservesAgree }
{}

/// The state behind a load that takes no page, change by change, is that behind its unit.
pub fn free_loads_agree()
    ensures { FreeLoadsAgree }
{}

/// The state behind a load that takes its page, change by change, is that behind its unit.
pub fn last_loads_agree()
    ensures { LastLoadsAgree }
{}

/// The state behind a load-reserved that takes no page, change by change, is that behind its unit.
pub fn free_reserves_agree()
    ensures { FreeReservesAgree }
{}

/// The state behind a load-reserved that takes its page, change by change, is that behind its unit.
pub fn last_reserves_agree()
    ensures { LastReservesAgree }
{}

/// The state behind a store, change by change, is that behind its unit.
pub fn stores_agree()
    ensures { StoresAgree }
{}

/// The state behind a store-conditional that writes, change by change, is that behind its unit.
pub fn conditionals_agree()
    ensures { ConditionalsAgree }
{}

/// The state behind an atomic memory operation, change by change, is that behind its unit.
pub fn swaps_agree()
    ensures { SwapsAgree }
{}

/// The state behind a store-conditional that is lost, change by change, is that behind its unit.
pub fn lost_conditionals_agree()
    ensures { LostConditionalsAgree }
{}

/// The state behind a store-conditional that misses, change by change, is that behind its unit.
pub fn missed_conditionals_agree()
    ensures { MissedConditionalsAgree }
{}
