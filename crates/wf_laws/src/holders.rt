//! Who touches a page of data, and when.
ghost use Rattle.wf_laws.specs.Holders.{EndingIsForHolder, GoneIsUntouched, HoldersAreAlone};

/// From the time that a hart takes a page of data to the end of its try, no other hart takes the
/// page or reads or writes in it.
pub fn holders_are_alone()
    ensures { HoldersAreAlone }
{}

/// From the time that a page of data is gone to its next mapping, no hart takes the page or reads
/// or writes in it.
pub fn gone_is_untouched()
    ensures { GoneIsUntouched }
{}

/// From the time that a page of data is Ending to its next mapping, no hart takes the page or reads
/// or writes in it but the one that held it then, and that not behind the end of its try.
pub fn ending_is_for_holder()
    ensures { EndingIsForHolder }
{}
