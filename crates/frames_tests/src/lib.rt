//! Tests of frames, page tables and what a hart asks, over what their crates make public.
#![tactic(auto)]

#[cfg(test)]
mod asking;
#[cfg(test)]
mod entries;
#[cfg(test)]
mod keeping;
#[cfg(test)]
mod taking;
#[cfg(test)]
mod walks;
