//! Laws of building.
ghost use Rattle.patch_build.specs.Laws.{BuildsAreSame};

/// What is built depends on names only by what is found of each, and on the text of the area only
/// by which pages it has.
pub fn builds_are_same()
    ensures { BuildsAreSame }
{}
