//! Page tables of a run: where everything lies, and how a table is listed.
#![tactic(auto)]

mod homes;
mod index;
mod listing;
mod renewal;
mod tenants;

pub use homes::{Home, Homes, Tenant, change_tenants};
pub use listing::tables_listing;
