//! Tests of what files are read and loaded as, and of what the programs take from outside and give
//! to it: over public calls alone.
#![tactic(auto)]

#[cfg(test)]
mod building;
#[cfg(test)]
mod objects;
#[cfg(test)]
mod outside;
#[cfg(test)]
mod reading;
#[cfg(test)]
mod writing;
