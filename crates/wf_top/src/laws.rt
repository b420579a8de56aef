//! Laws of commands.
ghost use Rattle.wf_top.specs.Laws.{AnswersAreOne, OutputsAreCalledFor, OutputsAreOne};

use wf_check::checks_are_determined;
use wf_next::harts_are_determined;
use wf_run::answers_are_determined as runs_are_determined;

/// Files call for at most one answer to a command, which puts at most one text, where in its run no
/// frame is worn; where there is one, it is called for.
pub fn answers_are_determined()
    ensures answers { AnswersAreOne }
    ensures outputs { OutputsAreOne }
    ensures called { OutputsAreCalledFor }
{
    harts_are_determined();
    checks_are_determined();
    runs_are_determined();
}
