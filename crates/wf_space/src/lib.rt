//! Whole calls of the kernel over words and records: what each is to do, and how it is done.
#![tactic(auto)]

mod changing;
mod copying;
mod fault;
mod job;
mod laws;
mod leaves;
mod leaving;
mod performing;
mod planning;
mod space;
mod storing;
mod unmapping;

pub use changing::{make_change, note};
pub use copying::copy_frame;
pub use fault::SpaceFault;
pub use job::Job;
pub use laws::{
    cleared_stand, going_stands, harts_stand, jobs_can_be_planned, leave_stands, refusals_agree,
    unmap_stands, unmaps_can_be_carried_out,
};
pub use leaving::leave_page;
pub use performing::{carry_out, perform_piece};
pub use planning::{fill, prepare};
pub use space::Space;
pub use storing::{clear_live, fill_frame, make_live};
