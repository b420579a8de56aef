//! Laws of patches that fit one behind the other.
ghost use Rattle.patch_laws.specs.Laws.{FittingPatchesAreSound};

/// Patches that fit what they were built over, one behind the other, are patches of a run: their
/// pages are whole, rise, and stand once, and their jumps are placed.
pub fn fitting_patches_are_sound()
    ensures { FittingPatchesAreSound }
{}
