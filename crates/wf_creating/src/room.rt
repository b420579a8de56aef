//! The room that a birth takes.
use crate::Birth;
use wf_mapping::Blanks;
use wf_views::Plan;

/// What was made for a birth: its layout, an empty plan with room for it, and a page of zeros for
/// each node.
#[derive(Drop)]
pub struct BirthRoom {
    pub birth: Birth,
    pub plan: Plan,
    pub blanks: Blanks,
}
