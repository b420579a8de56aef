//! The segments that are loaded, by rising address.
ghost use Rattle.std.specs.Prelude.{◌≡◌, ◌++◌, ◌∷◌, [], None, not, true, false, nat_lt, nat_le, slice_get, length, OnOk, IfOk, IfErr};
ghost use Rattle.std.specs.List.{list_any, filter, last_or};
ghost use Rattle.std.specs.Option.{option_map_or};
ghost use Rattle.std.specs.BTreeMap.{values};
ghost use Rattle.elf_load.specs.Segments.{is_load, loads_of, clash};
ghost use Rattle.elf_load.specs.Rules.{high_address, shared_page, header_fault, IsFoundBy};
ghost use Rattle.elf_load.specs.Placing.{goes_before, HasSame, IsKeyed, ArePlaced};

use crate::LoadFault;
use crate::segments::{first_page, is_executable, is_load, page_after, segment_end};
use elf_read::{Elf, Segment};
use std::alloc::Global;
use std::collections::BTreeMap;
use wf_outside::LoadRule;

// The first ends before the second begins, and they share no page that one makes text and the other
// data.
fn goes_before(first: &Segment, second: &Segment) -> bool
    ensures { result ≡ goes_before first.now second.now }
{
    segment_end(first) <= u128::from(second.p_vaddr)
        && (page_after(first) <= first_page(second)
            || is_executable(first) == is_executable(second))
}

// The last that is placed below an address.
fn last_below(placed: &BTreeMap<u64, Segment>, at: u64) -> Option<Segment>
    requires { IsKeyed placed.now.entries }
    ensures { result ≡ last_or None (filter (λ s. nat_lt s.p_vaddr at) (values placed.now)) }
{
    placed.range(..at).next_back().map(|(_, segment)| *segment)
}

// The first that is placed from an address on.
fn first_from(placed: &BTreeMap<u64, Segment>, at: u64) -> Option<Segment>
    requires { IsKeyed placed.now.entries }
    ensures { result ≡ slice_get (filter (λ s. nat_le at s.p_vaddr) (values placed.now)) 0 }
{
    placed.range(at..).next().map(|(_, segment)| *segment)
}

// The segment below, if there is one, goes before this one.
fn goes_behind(below: Option<Segment>, segment: &Segment) -> bool
    ensures { result ≡ option_map_or (λ other. goes_before other segment.now) below true }
{
    below.map_or(true, |other| goes_before(&other, segment))
}

// The segment behind, if there is one, comes after this one.
fn is_followed(segment: &Segment, behind: Option<Segment>) -> bool
    ensures { result ≡ option_map_or (λ other. goes_before segment.now other) behind true }
{
    behind.map_or(true, |other| goes_before(segment, &other))
}

// The segment clashes with none that is placed.
fn fits(placed: &BTreeMap<u64, Segment>, segment: &Segment) -> bool
    requires map { IsKeyed placed.now.entries }
    requires load { is_load segment.now ≡ true }
    ensures { result ≡ not (list_any (λ other. clash other segment.now) (values placed.now)) }
{
    goes_behind(last_below(placed, segment.p_vaddr), segment)
        && is_followed(segment, first_from(placed, segment.p_vaddr))
}

// The segment is placed.
fn place(placed: &mut BTreeMap<u64, Segment>, segment: &Segment) -> Result<(), LoadFault>
    requires map { IsKeyed placed.old.entries }
    requires load { is_load segment.now ≡ true }
    requires apart { list_any (λ other. clash other segment.now) (values placed.old) ≡ false }
    ensures map { OnOk result (IsKeyed placed.new.entries) }
    ensures one_more { OnOk result
        (HasSame (values placed.new) (values placed.old ++ segment.now ∷ [])) }
    ensures memory { IfErr result (λ fault. fault ≡ LoadFault.Memory) }
{
    placed.insert(segment.p_vaddr, *segment)?;
    Ok(())
}

/// The segments that are loaded, by rising address: no two share a byte, or a page that one makes
/// text and the other data.
pub fn placed(alloc: Global, elf: &Elf) -> Result<Vec<Segment>, LoadFault>
    requires { header_fault elf.now high_address ≡ None }
    ensures passed { OnOk result (header_fault elf.now shared_page ≡ None) }
    ensures placed { IfOk result
        (λ placed. ArePlaced (length elf.now.bytes) (loads_of elf.now.segments) placed.items) }
    ensures fault { IfErr result (λ fault. IsFoundBy elf.now shared_page fault) }
{
    let mut placed = BTreeMap::new(alloc);
    for (i, segment) in elf.segments().iter().enumerate() {
        if is_load(segment) {
            if !fits(&placed, segment) {
                return Err(LoadFault::Rule {
                    rule: LoadRule::SharedPage,
                    at: elf.segment_place(i),
                });
            }
            place(&mut placed, segment)?;
        }
    }
    Ok(placed.into_values().collect(alloc)?)
}
