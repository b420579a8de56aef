//! Moves to one's own generation.
ghost use Rattle.patch_move_laws.specs.Moves.{CallsGoOnOutside, OwnMovesAreNotInside};

/// Where each jump of a generation has the two words that a built patch gives it, a hart at an ecall
/// of that generation's text goes on inside no jump there.
pub fn calls_go_on_outside()
    ensures { CallsGoOnOutside }
{}

/// In a legal journal a hart whose generation's jumps have their two words is never refused a move
/// to that generation for being inside a jump, whether it migrates to it by number or quiesces.
pub fn own_moves_are_not_inside()
    ensures { OwnMovesAreNotInside }
{}
