//! The flat machine: one table of data pages, one text per generation, and harts. This is what a
//! reader must believe; what runs stands for it.
#![tactic(auto)]

mod booting;
mod counting;
mod data;
mod event;
mod hart;
mod state;
mod text;

pub use booting::{BootFault, boot, numbers_of_text};
pub use counting::add_places;
pub use event::{Actor, Entry, Event, WaitFor};
pub use hart::answer_of;
pub use state::{Flat, FlatHart, FlatPage, Gen, Life, Reservation, Stage};
