//! The records at the start of a run.
ghost use Rattle.std.specs.Prelude.{◌≡◌, ◌<◌, ◌≤◌, ◌+◌, ◌^◌, [], ◌∷◌, Some, IfOk, length};
ghost use Rattle.wf_outside.specs.Lists.{IsRising};
ghost use Rattle.wf_flat.specs.Counts.{used_of};
ghost use Rattle.wf_flat.specs.Ordered.{page_numbers};
ghost use Rattle.wf_homes.specs.Stands.{born_of};
ghost use Rattle.wf_start.specs.Start.{AreFirstRecords, nodes_first};

use std::alloc::Global;
use wf_boot::{first_frames, pages_at};
use wf_flat::{Flat, Gen};
use wf_outside::Memory;
use wf_views::{BornAt, Records, Roomy, View, Views};

// The views, where there is one.
fn only_view(alloc: Global, view: View) -> Result<Views, Memory>
    ensures views { IfOk result (λ made. made.views ≡ view ∷ []) }
    ensures last { IfOk result (λ made. made.last ≡ Some view.generation) }
{
    let mut views = Views::new(alloc);
    views.add(view)?;
    Ok(views)
}

// The generations that were born, where there is one.
fn only_birth(alloc: Global, version: &Gen) -> Result<Roomy<BornAt>, Memory>
    ensures { IfOk result (λ made. made.items ≡ born_of version.now ∷ []) }
{
    let mut born = Vec::new(alloc);
    born.push(BornAt {
        parent: version.parent,
        patches: version.patches,
    })?;
    Ok(Roomy::from_vec(born))
}

/// The records of a state at the start of a run, whose one generation has this view.
pub(crate) fn first_records(
    alloc: Global,
    flat: &Flat,
    version: &Gen,
    view: View,
) -> Result<Records, Memory>
    requires first { view.generation ≡ 0 }
    requires nodes { used_of flat.now
        ≡ nodes_first flat.now version.now + length view.nodes.items }
    requires fits { used_of flat.now ≤ flat.now.limits.frames }
    requires small { used_of flat.now < 2 ^ 32 }
    requires rising { IsRising (page_numbers flat.now.pages) }
    ensures { IfOk result (AreFirstRecords flat.now version.now view) }
{
    let text = version.text.len() as u32;
    let count = flat.pages.len() as u32;
    let nodes = view.nodes.as_slice().len() as u32;
    let frames = first_frames(alloc, flat.limits, text, count, nodes)?;
    let pages = pages_at(alloc, text, &flat.pages)?;
    let views = only_view(alloc, view)?;
    let born = only_birth(alloc, version)?;
    Ok(Records {
        frames,
        views,
        pages,
        born,
        births: flat.births,
        limits: flat.limits,
    })
}
