//! Tests of the crates of instructions, over what these make public.
#![tactic(auto)]

#[cfg(test)]
mod arithmetic;
#[cfg(test)]
mod encoding;
#[cfg(test)]
mod steps;
#[cfg(test)]
mod words;
