//! The places of pages, and how many frames they take.
ghost use Rattle.std.specs.Prelude.{◌≡◌, ◌<◌, ◌+◌, ◌^◌, OnOk, OnErr, IfOk, length, true};
ghost use Rattle.wf_outside.specs.Lists.{IsRising};
ghost use Rattle.wf_flat.specs.Lists.{with_number};
ghost use Rattle.wf_flat.specs.Boot.{places_with};
ghost use Rattle.wf_flat.specs.Counts.{frames_of};

use crate::Gen;
use std::alloc::Global;
use wf_outside::{Memory, PAGE_WORDS};

// One more number in a rising list, where it isn't there yet.
fn add_number(numbers: &mut Vec<u32>, n: u32) -> Result<(), Memory>
    requires { IsRising numbers.old.items }
    ensures ok { OnOk result (numbers.new.items ≡ with_number n numbers.old.items) }
    ensures err { OnErr result (numbers.new.items ≡ numbers.old.items) }
    ensures rising { IsRising numbers.new.items }
{
    match numbers.binary_search(&n) {
        Ok(_) => Ok(()),
        Err(at) => {
            numbers.insert(at, n)?;
            Ok(())
        }
    }
}

/// Adds the places of 512 pages in which the pages of these numbers lie. Where memory runs out,
/// only the first of them may have been added.
#[tactic(auto, using(crate::proofs::BootLemmas::place_steps))]
pub fn add_places(places: &mut Vec<u32>, numbers: &[u32]) -> Result<(), Memory>
    requires { IsRising places.old.items }
    ensures ok { OnOk result (places.new.items ≡ places_with places.old.items numbers.now) }
    ensures rising { IsRising places.new.items }
{
    for n in numbers {
        add_number(places, *n / PAGE_WORDS as u32)?;
    }
    Ok(())
}

/// The frames that so many data pages and a live generation take. It takes memory for the upper
/// nodes.
pub fn frames_in(alloc: Global, pages: u64, version: &Gen) -> Result<u64, Memory>
    requires few_pages { pages < 2 ^ 32 }
    requires few_texts { length version.now.text < 2 ^ 32 }
    requires few_places { length version.now.reach < 2 ^ 32 }
    requires live { version.now.live ≡ true }
    ensures { IfOk result (λ frames. frames ≡ pages + frames_of version.now) }
{
    let mut upper = Vec::new(alloc);
    add_places(&mut upper, &version.reach)?;
    let nodes = 1 + upper.len() as u64 + version.reach.len() as u64;
    Ok(pages + (version.text.len() as u64 + nodes))
}
