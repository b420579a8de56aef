//! Tests of what calls change in the flat machine, over what its crates make public.
#![tactic(auto)]

#[cfg(test)]
mod births;
#[cfg(test)]
mod comings;
#[cfg(test)]
mod machines;
#[cfg(test)]
mod movings;
