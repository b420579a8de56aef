//! Maps of pages, carried out.
ghost use Rattle.std.specs.Prelude.{◌≡◌, None, MatchResult, OnErr, OnOk, length, map};
ghost use Rattle.wf_outside.specs.Lists.{IsRising};
ghost use Rattle.wf_frames.specs.Layout.{word_count};
ghost use Rattle.wf_views.specs.Views.{generation_number};
ghost use Rattle.wf_mapping.specs.Refusals.{IsMapFault, refusal_in};
ghost use Rattle.wf_mapping.specs.Room.{DifferInRoom, with_map_room};
ghost use Rattle.wf_mapped.specs.Mapped.{CanAskForMap, IsCurrentMap, IsMapCarriedOut, PagesAreMapped};
ghost use Rattle.wf_mapped.specs.Raising.{CanBeRaised};

use std::alloc::Global;
use wf_frames::Words;
use wf_mapping::{Mapping, plan_map};
use wf_space::{SpaceFault, carry_out};
use wf_views::{Plan, Records};

// The views of records stand by rising generation.
fn views_rise(records: &Records)
    ensures { IsRising (map generation_number records.now.views.views) }
{
    let _count = records.views.len();
}

// All words are there.
fn words_are_there(words: &Words)
    ensures { length words.now.items ≡ word_count words.now.frames }
{
    let _count = words.len();
}

/// The plan of a mapping that was made last for these words and records is carried out, all of it.
/// Words and records stand for the state in which its pages are mapped then.
pub fn carry_map(words: &mut Words, records: &mut Records, plan: Plan)
    requires { IsCurrentMap words.old records.old plan }
    ensures carried { IsMapCarriedOut words.old records.old plan words.new records.new }
    ensures raised { CanBeRaised records.new.frames }
{
    views_rise(records);
    carry_out(words, records, plan);
    words_are_there(words);
}

/// A mapping is planned and carried out, where it is refused for nothing and memory is there. It
/// takes the memory first.
///
/// # Errors
///
/// `Refused` with the first refusal that applies, and `Memory` where it runs out. Nothing has
/// changed then, but that there may be more room in the records.
pub fn map_pages(
    alloc: Global,
    words: &mut Words,
    records: &mut Records,
    mapping: Mapping,
) -> Result<(), SpaceFault>
    requires { CanAskForMap words.old records.old mapping }
    ensures mapped { OnOk result
        (PagesAreMapped words.old records.old mapping words.new records.new) }
    ensures fault { MatchResult result
        (λ _. refusal_in (with_map_room records.old mapping) mapping ≡ None)
        (IsMapFault records.new mapping) }
    ensures words { OnErr result (words.new ≡ words.old) }
    ensures records { OnErr result (DifferInRoom records.old records.new) }
    ensures raised { CanBeRaised records.new.frames }
{
    let plan = plan_map(alloc, records, mapping)?;
    views_rise(records);
    carry_map(words, records, plan);
    Ok(())
}
