//! Laws of runs.
ghost use Rattle.wf_follow.specs.Laws.{ReportsAreOne, UnitsAreWhole};

use wf_next::harts_are_determined;

/// A script that is built has at most one report, where no frame is worn; and in its run no try is
/// given up.
pub fn runs_are_determined()
    ensures reports { ReportsAreOne }
    ensures whole { UnitsAreWhole }
{
    harts_are_determined();
}
