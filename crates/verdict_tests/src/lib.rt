//! Tests of what requests to the kernel are refused for, and what is to do about them, over what
//! the crates make public.
#![tactic(auto)]

#[cfg(test)]
mod machines;
#[cfg(test)]
mod refusing;
