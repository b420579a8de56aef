//! Tests of names and of relocation, over public calls alone: values are worked out by hand from
//! the tables of the standards.
#![tactic(auto)]

#[cfg(test)]
mod entries;
#[cfg(test)]
mod names;
#[cfg(test)]
mod objects;
#[cfg(test)]
mod types;
