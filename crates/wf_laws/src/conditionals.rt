//! Load-reserved and store-conditional.
ghost use Rattle.wf_laws.specs.Conditionals.{ConditionalsAreAlone, ConditionalsFollow};

/// Where a store-conditional writes, the latest load-reserved of its hart read as many bytes at the
/// same address, and nobody wrote in their page since.
pub fn conditionals_are_alone()
    ensures { ConditionalsAreAlone }
{}

/// A store-conditional that writes follows a load-reserved of its hart, the latest, of the same
/// address and width.
pub fn conditionals_follow()
    ensures { ConditionalsFollow }
{}
