//! Frames that are free.
ghost use Rattle.std.specs.Prelude.{◌≡◌, IfOk, take};
ghost use Rattle.wf_mapping.specs.Layout.{free_in};

use std::alloc::Global;
use wf_outside::Memory;
use wf_views::Records;

/// The lowest free frames, so many, or all where fewer are free. None is taken.
pub fn lowest_free(alloc: Global, records: &Records, n: u64) -> Result<Vec<u32>, Memory>
    ensures { IfOk result (λ frames. frames.items ≡ take n (free_in records.now)) }
{
    let _count = records.frames.count();
    let mut frames = Vec::new(alloc);
    let mut from = 0;
    for _ in 0..n {
        let Some(frame) = records.frames.lowest(from) else {
            return Ok(frames);
        };
        frames.push(frame)?;
        from = frame + 1;
    }
    Ok(frames)
}
