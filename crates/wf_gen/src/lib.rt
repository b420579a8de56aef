//! A program of as many functions as are wanted, and patches for it: the files of a large run, made
//! from a number.
#![tactic(auto)]

mod files;
mod sources;

pub use files::make_files;
