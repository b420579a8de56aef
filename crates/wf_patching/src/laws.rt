//! Laws of births with a patch.
ghost use Rattle.wf_patching.specs.Laws.{UnfitPatchesAgree};

/// A patch is refused for what the table of calls says, in the state that words and records stand
/// for, but for want of frames.
pub fn unfit_patches_agree()
    ensures { UnfitPatchesAgree }
{}
