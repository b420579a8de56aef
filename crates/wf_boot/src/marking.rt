//! Frames that are taken at the start of a run.
ghost use Rattle.std.specs.Prelude.{◌≡◌, ◌<◌, ◌≤◌, ◌+◌, ◌^◌, IfOk};
ghost use Rattle.wf_frames.specs.declared.state.FrameState.TheVariants.{Free};
ghost use Rattle.wf_frames.specs.Frames.{HasState, with_frame};
ghost use Rattle.wf_space.specs.Changes.{marked};
ghost use Rattle.wf_boot.specs.Frames.{AreLaidOut};
ghost use Rattle.wf_start.specs.Marking.{AreFresh, AreUsed};

use std::alloc::Global;
use wf_frames::Frames;
use wf_outside::{Limits, Memory};

// A free frame is taken, and is in its next incarnation where it is to have data.
fn use_frame(frames: &mut Frames, frame: u32, is_data: bool)
    requires { HasState frames.old.frames frame Free }
    ensures { frames.new ≡ with_frame frames.old frame (marked frames.old.last_birth is_data) }
{
    frames.mark(frame);
    if is_data {
        frames.raise(frame);
    }
}

// So many frames from `first` on, which were never used, are taken. Each is in its first
// incarnation where they are to have data.
fn use_frames(frames: &mut Frames, first: u32, count: u32, is_data: bool)
    requires few { first + count < 2 ^ 32 }
    requires fresh { AreFresh frames.old first count }
    ensures { AreUsed frames.old frames.new first count is_data }
{
    for i in 0..count {
        use_frame(frames, first + i, is_data);
    }
}

/// The frames at the start of a run: so many have text, so many behind them data, and so many behind
/// those nodes.
pub fn first_frames(
    alloc: Global,
    limits: Limits,
    text: u32,
    pages: u32,
    nodes: u32,
) -> Result<Frames, Memory>
    requires { text + pages + nodes ≤ limits.frames }
    ensures { IfOk result (λ frames. AreLaidOut frames limits text pages nodes) }
{
    let mut frames = Frames::new(alloc, limits)?;
    use_frames(&mut frames, 0, text, false);
    use_frames(&mut frames, text, pages, true);
    use_frames(&mut frames, text + pages, nodes, false);
    Ok(frames)
}
