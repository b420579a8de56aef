//! Tests of journals: of a hart that moves to a generation with a jump, and of frames that are
//! worn.
#![tactic(auto)]

#[cfg(test)]
mod machines;
#[cfg(test)]
mod moves;
#[cfg(test)]
mod unmaps;
