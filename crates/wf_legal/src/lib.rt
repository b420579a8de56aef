//! Which journals the flat machine allows, over its steps, effects and verdicts: definitions alone,
//! in `specs/`, which the laws, the machine and the checker of journals cite.
#![tactic(auto)]
