//! The jumps in the text of a generation that is born with a patch.
ghost use Rattle.std.specs.Prelude.{◌≡◌, IfOk, not};
ghost use Rattle.std.specs.List.{filter};
ghost use Rattle.wf_effects.specs.Texts as texts;
ghost use Rattle.wf_patching.specs.Brought as brought;

use std::alloc::Global;
use wf_creating::parent_jumps;
use wf_outside::{Delta, Jump, Memory};
use wf_views::Records;

// Whether one of the jumps stands at the address.
fn is_jump_at(jumps: &[Jump], at: u64) -> bool
    ensures { result ≡ texts.is_jump_at jumps.now at }
{
    jumps.iter().any(|jump| jump.at == at)
}

// Of jumps those at other addresses than others.
fn keep_others(old: &mut Vec<Jump>, new: &[Jump])
    ensures { old.new.items
        ≡ filter (λ jump. not (texts.is_jump_at new.now jump.at)) old.old.items }
{
    old.retain(|jump| !is_jump_at(new, jump.at));
}

/// The jumps of its parent at other addresses, then those of the patch.
pub(crate) fn patched_jumps(
    alloc: Global,
    records: &Records,
    parent: u32,
    delta: &Delta,
) -> Result<Vec<Jump>, Memory>
    ensures { IfOk result
        (λ jumps. jumps.items ≡ brought.patched_jumps records.now parent delta.now) }
{
    let mut jumps = parent_jumps(records, parent).to_vec(alloc)?;
    keep_others(&mut jumps, &delta.jumps);
    jumps.extend_from_slice(&delta.jumps)?;
    Ok(jumps)
}
