//! Tests of scripts, journals and the files of patches, over their public calls.
#![tactic(auto)]

#[cfg(test)]
mod journal_tests;
#[cfg(test)]
mod patch_tests;
#[cfg(test)]
mod script_tests;
