//! The room that a mapping takes.
use crate::{Blanks, Layout};
use wf_views::Plan;

/// What was made for a mapping: its layout, an empty plan with room for it, and a page of zeros for
/// each frame.
#[derive(Drop)]
pub struct MapRoom {
    pub layout: Layout,
    pub plan: Plan,
    pub blanks: Blanks,
}
