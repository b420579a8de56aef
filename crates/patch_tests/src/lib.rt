//! Tests of patches over public calls alone: what is answered for their files, and what they bring.
//! Images and objects are assembled; addresses and bytes are worked out by hand.
#![tactic(auto)]

#[cfg(test)]
mod fetch_tests;
#[cfg(test)]
mod sources;
