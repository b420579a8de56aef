//! Where a hart has at most one next event, and which.
ghost use Rattle.wf_next.specs.Determined.{HartsAreDetermined, NextEventsAreDetermined};

/// A hart that is undisturbed does nothing but its next event.
pub fn next_events_are_determined()
    ensures { NextEventsAreDetermined }
{}

/// A hart that is undisturbed has at most one next event: in no try and outside the kernel, or
/// where no page has moved since its fetch, every page of data is Here, and no other hart holds
/// one.
pub fn harts_are_determined()
    ensures { HartsAreDetermined }
{}
