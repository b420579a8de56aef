//! The view of the first generation.
ghost use Rattle.std.specs.Prelude.{◌≡◌, ◌<◌, ◌+◌, ◌^◌, IfOk, length};
ghost use Rattle.std.specs.List.{range_with_len};
ghost use Rattle.wf_outside.specs.Lists.{IsRising};
ghost use Rattle.wf_homes.specs.Homes.{tree_nodes};
ghost use Rattle.wf_start.specs.Start.{IsFirstView, nodes_first};

use std::alloc::Global;
use wf_boot::{nodes_at, text_at, tree_of};
use wf_flat::{Flat, Gen};
use wf_outside::Memory;
use wf_views::{Numbers, Roomy, View};

// The same numbers, which rise.
fn numbers_of(alloc: Global, numbers: &[u32]) -> Result<Numbers, Memory>
    requires { IsRising numbers.now }
    ensures { IfOk result (λ made. made.items ≡ numbers.now) }
{
    let mut made = Numbers::new(alloc);
    for number in numbers {
        made.put(*number)?;
    }
    Ok(made)
}

// The numbers of so many harts.
fn harts_of(alloc: Global, harts: u8) -> Result<Numbers, Memory>
    ensures { IfOk result (λ made. made.items ≡ range_with_len 0 harts) }
{
    let mut made = Numbers::new(alloc);
    for hart in 0..harts {
        made.put(u32::from(hart))?;
    }
    Ok(made)
}

/// The view of the first generation, in which so many harts are: its pages of text lie in the frames
/// from 0 on, its nodes behind the pages of data, and it has met nothing.
pub(crate) fn first_view(
    alloc: Global,
    flat: &Flat,
    version: &Gen,
    harts: u8,
) -> Result<View, Memory>
    requires { nodes_first flat.now version.now + length (tree_nodes version.now.reach) < 2 ^ 32 }
    ensures { IfOk result (IsFirstView flat.now version.now harts) }
{
    let root = version.text.len() as u32 + flat.pages.len() as u32;
    let tree = tree_of(alloc, &version.reach)?;
    let nodes = nodes_at(alloc, root, &tree)?;
    let text = text_at(alloc, 0, &version.text)?;
    let jumps = version.jumps.to_vec(alloc)?;
    let reach = numbers_of(alloc, &version.reach)?;
    let residents = harts_of(alloc, harts)?;
    Ok(View {
        generation: 0,
        parent: version.parent,
        root,
        nodes: Roomy::from_vec(nodes),
        text,
        jumps,
        patches: version.patches,
        reach,
        met: Numbers::new(alloc),
        residents,
    })
}
