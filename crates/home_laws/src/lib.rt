//! Laws of homes in journals: they are settled once made, and stay where nothing of what lies in
//! frames changes.
#![tactic(auto)]

mod laws;

pub use laws::{homes_settle, homes_stay};
