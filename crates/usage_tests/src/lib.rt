//! Tests of the words of the command line, over their public call.
#![tactic(auto)]

#[cfg(test)]
mod line_tests;
