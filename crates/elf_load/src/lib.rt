//! Loading of ELF executables: the image of a file that was read, or the first rule that it breaks.
#![tactic(auto)]

mod fault;
mod filling;
mod laws;
mod loading;
mod naming;
mod pages;
mod paging;
mod placing;
mod rules;
mod segments;

pub use fault::LoadFault;
pub use filling::words_of;
pub use laws::parts_stand_at_their_addresses;
pub use loading::load;
