//! The pages that segments meet.
ghost use Rattle.std.specs.Prelude.{◌≡◌, ◌++◌, ◌≤◌, ◌-◌, ◌^◌, ◌<◌, true, length, OnOk, IfOk};
ghost use Rattle.std.specs.List.{AllByRecursion, range_with_len, filter};
ghost use Rattle.std.specs.List.Sorted.{IsPartitionPoint};
ghost use Rattle.wf_outside.specs.declared.sizes.TheConstants.{DATA_END_PAGE};
ghost use Rattle.elf_load.specs.Segments.{is_load, first_page, page_after, meets, is_met};
ghost use Rattle.elf_load.specs.Placing.{AreInOrder};
ghost use Rattle.elf_load.specs.Loaded.{pages_below};

use crate::segments::{first_page, page_after};
use elf_read::Segment;
use std::alloc::Global;
use wf_outside::Memory;

// The numbers from one on, up to but without another.
#[tactic(auto, using(crate::proofs::PagingLemmas::range_steps))]
fn push_range(numbers: &mut Vec<u32>, from: u64, to: u64) -> Result<(), Memory>
    requires { to < 2 ^ 32 }
    ensures { OnOk result
        (numbers.new.items ≡ numbers.old.items ++ range_with_len from (to - from)) }
{
    for number in from..to {
        numbers.push(number as u32)?;
    }
    Ok(())
}

/// The numbers of the pages that the segments meet, each once and by rising number.
pub fn page_numbers(alloc: Global, loads: &[Segment]) -> Result<Vec<u32>, Memory>
    requires rising { AreInOrder loads.now }
    requires loads { AllByRecursion (λ s. is_load s ≡ true) loads.now }
    requires low { AllByRecursion (λ s. page_after s ≤ DATA_END_PAGE) loads.now }
    ensures { IfOk result
        (λ numbers. numbers.items ≡ pages_below DATA_END_PAGE (is_met loads.now)) }
{
    let mut numbers = Vec::new(alloc);
    let mut next = 0;
    for load in loads {
        let after = page_after(load);
        push_range(&mut numbers, first_page(load).max(next), after)?;
        next = after;
    }
    Ok(numbers)
}

// How many end before a page.
fn ended(loads: &[Segment], number: u64) -> usize
    requires rising { AreInOrder loads.now }
    requires loads { AllByRecursion (λ s. is_load s ≡ true) loads.now }
    ensures bound { result ≤ length loads.now }
    ensures point { IsPartitionPoint (λ s. page_after s ≤ number) (λ s. number < page_after s)
        loads.now result }
{
    loads.partition_point(|load| page_after(load) <= number)
}

// How many begin before a page or on it.
fn begun(loads: &[Segment], number: u64) -> usize
    requires rising { AreInOrder loads.now }
    requires loads { AllByRecursion (λ s. is_load s ≡ true) loads.now }
    ensures bound { result ≤ length loads.now }
    ensures point { IsPartitionPoint (λ s. first_page s ≤ number) (λ s. number < first_page s)
        loads.now result }
{
    loads.partition_point(|load| first_page(load) <= number)
}

/// The segments that meet a page.
pub fn on_page(loads: &[Segment], number: u64) -> &[Segment]
    requires rising { AreInOrder loads.now }
    requires loads { AllByRecursion (λ s. is_load s ≡ true) loads.now }
    ensures { result.now ≡ filter (λ s. meets s number) loads.now }
{
    &loads[ended(loads, number)..begun(loads, number)]
}
