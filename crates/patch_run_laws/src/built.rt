//! Jumps of patches that were built.
ghost use Rattle.patch_run_laws.specs.Built.{BuiltPatchesHaveBuiltJumps, FilesBringBuiltJumps};
ghost use Rattle.patch_run_laws.specs.Built.{FittingJumpsAreClear};

/// The jumps of patches that were built are at multiples of 4, and have the bytes of a jump to an
/// address that they can lead to.
pub fn built_patches_have_built_jumps()
    ensures { BuiltPatchesHaveBuiltJumps }
{}

/// So are the jumps of the patches that files mean over an image.
pub fn files_bring_built_jumps()
    ensures { FilesBringBuiltJumps }
{}

/// No two jumps of patches that fit one behind the other overlap in part: they begin at the same
/// byte, or share none.
pub fn fitting_jumps_are_clear()
    ensures { FittingJumpsAreClear }
{}
