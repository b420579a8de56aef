//! The records of the kernel, and how a data page leaves them.
ghost use Rattle.std.specs.Prelude.{◌≡◌, ◌↔◌, IsSomeAnd, IsTrue};
ghost use Rattle.wf_frames.specs.declared.state.FrameState.TheVariants.{Worn as WornState};
ghost use Rattle.wf_frames.specs.Frames.{HasState};
ghost use Rattle.wf_views.specs.Pages.{page_at};
ghost use Rattle.wf_views.specs.Records.{IsEnding, IsGoing, HasFrame, gone, left};

use crate::{Pages, Roomy, Views};
use wf_frames::{FrameState, Frames};
use wf_outside::Limits;

/// A generation that was born: that from which it was cloned, and how many patches of the script it
/// has.
#[derive(Clone, Copy, Debug, PartialEq, Eq)]
pub struct BornAt {
    pub parent: Option<u32>,
    pub patches: u32,
}

/// What the kernel knows beside the words: its frames, the views of the live generations, the data
/// pages, one entry for each generation that was ever born, the number of births of data pages, and
/// the limits.
#[derive(Drop)]
pub struct Records {
    pub frames: Frames,
    pub views: Views,
    pub pages: Pages,
    pub born: Roomy<BornAt>,
    pub births: u64,
    pub limits: Limits,
}

impl Records {
    /// A page that is going, and whose frame is in use, leaves: it is ending where a hart holds it
    /// (`held`), else it is gone and its frame is given back; and no view has met it any more. It
    /// tells whether the frame is worn now.
    pub fn leave(&mut self, page: u32, held: bool) -> bool
        requires { IsGoing self.old page }
        ensures left { IsSomeAnd (page_at self.old.pages page)
            (λ p. self.new ≡ left held self.old p) }
        ensures worn { IsSomeAnd (page_at self.old.pages page)
            (λ p. IsTrue result ↔ HasState self.new.frames.frames p.frame WornState) }
    {
        self.views.forget(page);
        if held {
            self.pages.set_ending(page);
            return false;
        }
        self.let_go(page)
    }

    /// A page that is ending, and whose frame is in use, is gone, and its frame is given back. It
    /// tells whether the frame is worn now.
    pub fn settle(&mut self, page: u32) -> bool
        requires { IsEnding self.old page }
        ensures gone { IsSomeAnd (page_at self.old.pages page) (λ p. self.new ≡ gone self.old p) }
        ensures worn { IsSomeAnd (page_at self.old.pages page)
            (λ p. IsTrue result ↔ HasState self.new.frames.frames p.frame WornState) }
    {
        self.let_go(page)
    }

    // A page is gone, and its frame is given back. It tells whether the frame is worn now.
    fn let_go(&mut self, page: u32) -> bool
        requires { IsSomeAnd (page_at self.old.pages page) (λ p. HasFrame self.old p) }
        ensures gone { IsSomeAnd (page_at self.old.pages page) (λ p. self.new ≡ gone self.old p) }
        ensures worn { IsSomeAnd (page_at self.old.pages page)
            (λ p. IsTrue result ↔ HasState self.new.frames.frames p.frame WornState) }
    {
        let Some(page) = self.pages.remove(page) else {
            unreachable!();
        };
        self.frames.give(page.frame);
        match self.frames.state(page.frame) {
            FrameState::Free => false,
            FrameState::InUse => false,
            FrameState::Worn => true,
        }
    }
}
