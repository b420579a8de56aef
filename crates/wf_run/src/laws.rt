//! Laws of the answers of runs.
ghost use Rattle.wf_run.specs.Laws.{AnswersAreOne, ReportsAreCalledFor, ReportsAreOne};

use wf_follow::runs_are_determined;

/// Files call for at most one answer, and have at most one report, where no frame is worn in its
/// run; where they have one, they call for it.
pub fn answers_are_determined()
    ensures answers { AnswersAreOne }
    ensures reports { ReportsAreOne }
    ensures called { ReportsAreCalledFor }
{
    runs_are_determined();
}
