//! What calls are refused for.
ghost use Rattle.wf_laws.specs.Refusals.{MigratesAreRefusedInside, MovesAreOutside, QuiescesAreRefusedInside, RefusalsAreOfTable};

/// A program's call is refused for the first refusal of the table of calls that applies to it.
pub fn refusals_are_of_table()
    ensures { RefusalsAreOfTable }
{}

/// A migrate to a generation that lives is refused only where the mover would go on inside a jump
/// of that generation's text, and for that reason.
pub fn migrates_are_refused_inside()
    ensures { MigratesAreRefusedInside }
{}

/// A quiesce is refused only where the mover would go on inside a jump of the newest generation's
/// text, and for that reason.
pub fn quiesces_are_refused_inside()
    ensures { QuiescesAreRefusedInside }
{}

/// A hart that moves to a generation goes on inside no jump of its text.
pub fn moves_are_outside()
    ensures { MovesAreOutside }
{}
