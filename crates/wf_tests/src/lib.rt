//! Tests of what no command of the program shows: last counts of writes far below those of runs, the
//! machine's starts, reports of states that no run of today meets, the lines of statuses, and the
//! records of an object that is read back.
#![tactic(auto)]

#[cfg(test)]
mod count_tests;
#[cfg(test)]
mod images;
#[cfg(test)]
mod object_tests;
#[cfg(test)]
mod report_tests;
#[cfg(test)]
mod start_tests;
#[cfg(test)]
mod status_tests;
