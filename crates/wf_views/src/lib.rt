//! View records, the records that the kernel keeps, and what it plans with them.
#![tactic(auto)]

mod listed;
mod numbers;
mod pages;
mod plan;
mod records;
mod roomy;
mod view;
mod views;

pub use listed::Listed;
pub use numbers::Numbers;
pub use pages::{PageAt, Pages};
pub use plan::{Change, Piece, Plan};
pub use records::{BornAt, Records};
pub use roomy::Roomy;
pub use view::{NodeAt, TextAt, View};
pub use views::Views;
