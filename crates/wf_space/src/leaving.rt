//! Pages that leave.
ghost use Rattle.std.specs.Prelude.{◌<◌, ◌↔◌, IsSomeAnd, IsTrue};
ghost use Rattle.wf_frames.specs.declared.state.FrameState.TheVariants.{Worn as WornState};
ghost use Rattle.wf_frames.specs.Frames.{HasState};
ghost use Rattle.wf_views.specs.Pages.{page_at};
ghost use Rattle.wf_views.specs.Records.{IsGoing};
ghost use Rattle.wf_space.specs.Pieces.{Leaves};

use crate::storing::clear_live;
use wf_frames::Words;
use wf_views::Records;

/// A page that is going leaves: the live bit of its frame's word is cleared, and it is ending where
/// a hart has taken the frame, else gone. It tells whether the frame is worn now.
pub fn leave_page(words: &mut Words, records: &mut Records, page: u32) -> bool
    requires going { IsGoing records.old page }
    requires low { IsSomeAnd (page_at records.old.pages page) (λ p. p.frame < words.old.frames) }
    ensures leaves { IsSomeAnd (page_at records.old.pages page)
        (Leaves words.old words.new records.old records.new) }
    ensures worn { IsSomeAnd (page_at records.old.pages page)
        (λ p. IsTrue result ↔ HasState records.new.frames.frames p.frame WornState) }
{
    let Some(leaving) = records.pages.find(page) else {
        unreachable!();
    };
    let held = clear_live(words, leaving.frame);
    records.leave(page, held)
}
