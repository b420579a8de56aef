//! Runs with patches that were built.
ghost use Rattle.patch_run_laws.specs.Runs.{HartsStayOnText, JumpsKeepTheirWords};
ghost use Rattle.patch_run_laws.specs.Runs.{OwnMovesOfRunsAreNotInside};

/// At the end of every legal journal of a run with built patches each jump of each generation has
/// its two words in the generation's text.
pub fn jumps_keep_their_words()
    ensures { JumpsKeepTheirWords }
{}

/// At the end of every legal journal of a run each hart that is not inside the kernel has a pc that
/// is a multiple of 4, and in a try it has fetched the four bytes there of its generation's text.
pub fn harts_stay_on_text()
    ensures { HartsStayOnText }
{}

/// In every legal journal of a run with built patches no hart's move to its own generation is
/// refused for being inside a jump, whether it migrates to it by number or quiesces.
pub fn own_moves_of_runs_are_not_inside()
    ensures { OwnMovesOfRunsAreNotInside }
{}
