//! Homes after a call.
ghost use Rattle.std.specs.Prelude.{◌≡◌, ◌++◌, ◌&&◌, ◌||◌, ℕ, List, IfOk, OnOk, is_some, map, nat_eq, not};
ghost use Rattle.std.specs.BTreeMap.{get};
ghost use Rattle.std.specs.BTreeSet.{contains};
ghost use Rattle.std.specs.List.{filter, fold, range_with_len, zip};
ghost use Rattle.std.specs.Ordering.{nat_cmp};
ghost use Rattle.std.specs.Set.{is_member};
ghost use Rattle.wf_flat.specs.State.{FlatState};
ghost use Rattle.wf_homes.specs.Homes as definitions;
ghost use Rattle.wf_homes.specs.Homes.{Homes as HomesValue, homes_after, homes_at_boot, homes_behind, homes_in, without_page};
ghost use Rattle.wf_tables.specs.Values.{home_value, tenant_value};
ghost use Rattle.wf_tables.specs.Index.{AreLeft, AreNoted, IsIndex, tenant_cmp};

use crate::homes::{Home, Homes, Tenant};
use crate::index::{index_of, set_of};
use crate::tenants::tenants_of;
use std::alloc::Global;
use std::collections::{BTreeMap, BTreeSet};
use wf_flat::{Entry, Event, Flat};
use wf_outside::Memory;

// A page of data gives its home up, and the frame is one of those that are worn now, or not.
fn give_up_page(
    index: &mut BTreeMap<Tenant, u32>,
    new: &mut Vec<u32>,
    page: u32,
    worn: bool,
) -> Result<(), Memory>
    ensures { OnOk result ((before : List ℕ) (homes : HomesValue)
        → AreNoted index.old new.old.items before homes
        → AreNoted index.new new.new.items before (without_page homes page worn)) }
{
    let home = index.remove(&Tenant::Data { page });
    if let Some(frame) = home {
        if worn {
            new.push(frame)?;
        }
    }
    Ok(())
}

// What an event makes of homes at once.
fn give_up(
    index: &mut BTreeMap<Tenant, u32>,
    new: &mut Vec<u32>,
    event: Event,
) -> Result<(), Memory>
    ensures { OnOk result ((before : List ℕ) (homes : HomesValue)
        → AreNoted index.old new.old.items before homes
        → AreNoted index.new new.new.items before (homes_behind homes event)) }
{
    match event {
        Event::Gone { page, worn } => give_up_page(index, new, page, worn),
        Event::Fetch { .. } => Ok(()),
        Event::Look { .. } => Ok(()),
        Event::Take { .. } => Ok(()),
        Event::Put { .. } => Ok(()),
        Event::Swap { .. } => Ok(()),
        Event::Miss { .. } => Ok(()),
        Event::End { .. } => Ok(()),
        Event::Again { .. } => Ok(()),
        Event::Wait { .. } => Ok(()),
        Event::Enter => Ok(()),
        Event::Sync { .. } => Ok(()),
        Event::Trap { .. } => Ok(()),
        Event::Exit { .. } => Ok(()),
        Event::Out { .. } => Ok(()),
        Event::Idle => Ok(()),
        Event::Map { .. } => Ok(()),
        Event::Going { .. } => Ok(()),
        Event::Ending { .. } => Ok(()),
        Event::Born { .. } => Ok(()),
        Event::Move { .. } => Ok(()),
        Event::Dead { .. } => Ok(()),
        Event::Refused { .. } => Ok(()),
    }
}

// The same for entries in their order.
fn give_up_all(
    index: &mut BTreeMap<Tenant, u32>,
    new: &mut Vec<u32>,
    entries: &[Entry],
) -> Result<(), Memory>
    ensures { OnOk result ((before : List ℕ) (homes : HomesValue)
        → AreNoted index.old new.old.items before homes
        → AreNoted index.new new.new.items before
        (fold homes_behind homes (map (λ entry. entry.event) entries.now))) }
{
    for entry in entries {
        give_up(index, new, entry.event)?;
    }
    Ok(())
}

// An index of the homes that entries leave, and the frames that are worn after them.
fn left_by(
    alloc: Global,
    homes: &Homes,
    entries: &[Entry],
) -> Result<(BTreeMap<Tenant, u32>, Vec<u32>), Memory>
    ensures index { IfOk result (λ left. IsIndex left.0
        (fold homes_behind homes.now (map (λ entry. entry.event) entries.now)).homes) }
    ensures worn { IfOk result (λ left. left.1.items
        ≡ (fold homes_behind homes.now (map (λ entry. entry.event) entries.now)).worn) }
{
    let mut index = index_of(alloc, &homes.homes)?;
    let mut worn = Vec::new(alloc);
    give_up_all(&mut index, &mut worn, entries)?;
    worn.reverse();
    worn.extend_from_slice(&homes.worn)?;
    Ok((index, worn))
}

// A tenant has its home in an index, and is there.
fn stays(tenant: Tenant, index: &BTreeMap<Tenant, u32>, there: &BTreeSet<Tenant>) -> bool
    ensures { result
        ≡ (is_some (get tenant_cmp index.now tenant) && contains tenant_cmp there.now tenant) }
{
    index.contains_key(&tenant) && there.contains(&tenant)
}

// The homes that are in an index, of tenants that are there.
fn kept(
    alloc: Global,
    homes: &[Home],
    index: &BTreeMap<Tenant, u32>,
    there: &BTreeSet<Tenant>,
) -> Result<Vec<Home>, Memory>
    ensures { IfOk result (λ kept. kept.items ≡ filter (λ home.
        is_some (get tenant_cmp index.now home.tenant)
        && contains tenant_cmp there.now home.tenant) homes.now) }
{
    let mut kept = Vec::new(alloc);
    for home in homes {
        if stays(home.tenant, index, there) {
            kept.push(*home)?;
        }
    }
    Ok(kept)
}

// The tenants that are not in an index.
fn newcomers(
    alloc: Global,
    tenants: &[Tenant],
    index: &BTreeMap<Tenant, u32>,
) -> Result<Vec<Tenant>, Memory>
    ensures { IfOk result (λ new. new.items
        ≡ filter (λ tenant. not (is_some (get tenant_cmp index.now tenant))) tenants.now) }
{
    let mut new = Vec::new(alloc);
    for tenant in tenants {
        if !index.contains_key(tenant) {
            new.push(*tenant)?;
        }
    }
    Ok(new)
}

// The frames of homes, beside others.
fn note_homes(taken: &mut BTreeSet<u32>, homes: &[Home]) -> Result<(), Memory>
    ensures { OnOk result ((frame : ℕ) → contains nat_cmp taken.new frame
        ≡ (contains nat_cmp taken.old frame
        || is_member nat_eq (map (λ home. home.frame) homes.now) frame)) }
{
    for home in homes {
        taken.insert(home.frame)?;
    }
    Ok(())
}

// Frames, beside others.
fn note_frames(taken: &mut BTreeSet<u32>, frames: &[u32]) -> Result<(), Memory>
    ensures { OnOk result ((frame : ℕ) → contains nat_cmp taken.new frame
        ≡ (contains nat_cmp taken.old frame || is_member nat_eq frames.now frame)) }
{
    for frame in frames {
        taken.insert(*frame)?;
    }
    Ok(())
}

// The frames that are a home or worn.
fn taken_by(alloc: Global, homes: &[Home], worn: &[u32]) -> Result<BTreeSet<u32>, Memory>
    ensures { IfOk result (λ taken. (frame : ℕ) → contains nat_cmp taken frame
        ≡ (is_member nat_eq (map (λ home. home.frame) homes.now) frame
        || is_member nat_eq worn.now frame)) }
{
    let mut taken = BTreeSet::new(alloc);
    note_homes(&mut taken, homes)?;
    note_frames(&mut taken, worn)?;
    Ok(taken)
}

// What is new gets the lowest frames, of so many, that are not taken, in order.
fn settle(
    homes: &mut Vec<Home>,
    new: &[Tenant],
    taken: &BTreeSet<u32>,
    count: u32,
) -> Result<(), Memory>
    ensures { OnOk result (map home_value homes.new.items
        ≡ map home_value homes.old.items ++ zip (map tenant_value new.now)
        (filter (λ frame. not (contains nat_cmp taken.now frame)) (range_with_len 0 count))) }
{
    let mut at = 0;
    for frame in 0..count {
        if at == new.len() {
            return Ok(());
        }
        if !taken.contains(&frame) {
            homes.push(Home {
                tenant: new[at],
                frame,
            })?;
            at += 1;
        }
    }
    Ok(())
}

// The homes in a state that has these tenants and so many frames, from those that are left.
fn housed(
    alloc: Global,
    homes: &[Home],
    index: &BTreeMap<Tenant, u32>,
    worn: &[u32],
    tenants: &[Tenant],
    count: u32,
) -> Result<Vec<Home>, Memory>
    ensures { IfOk result (λ housed. (left : HomesValue) (s : FlatState)
        → IsIndex index.now left.homes → AreLeft left (map home_value homes.now)
        → left.worn ≡ worn.now → definitions.tenants_of s ≡ map tenant_value tenants.now
        → s.limits.frames ≡ count
        → map home_value housed.items ≡ (homes_in left s).homes) }
{
    let there = set_of(alloc, tenants)?;
    let mut housed = kept(alloc, homes, index, &there)?;
    let new = newcomers(alloc, tenants, index)?;
    let taken = taken_by(alloc, &housed, worn)?;
    settle(&mut housed, &new, &taken, count)?;
    Ok(housed)
}

// How many frames a machine has.
fn frames_of(flat: &Flat) -> u32
    ensures { result ≡ flat.now.limits.frames }
{
    let limits = &flat.limits;
    limits.frames
}

impl Homes {
    /// The homes after a call, from those before it: its entries, and the state after them. It
    /// takes time in the entries, the homes, the tenants and the worn frames, and in the logarithm of
    /// their count.
    pub fn renewed(&self, alloc: Global, entries: &[Entry], flat: &Flat) -> Result<Homes, Memory>
        ensures { IfOk result (λ homes. homes
            ≡ homes_after self.now (map (λ entry. entry.event) entries.now) flat.now) }
    {
        let (index, worn) = left_by(alloc, self, entries)?;
        let tenants = tenants_of(alloc, flat)?;
        let homes = housed(alloc, &self.homes, &index, &worn, &tenants, frames_of(flat))?;
        Ok(Homes { homes, worn })
    }

    /// The homes at the start of a run. It takes time in the tenants, and in the logarithm of their
    /// count.
    pub fn boot(alloc: Global, flat: &Flat) -> Result<Homes, Memory>
        ensures { IfOk result (λ homes. homes ≡ homes_at_boot flat.now) }
    {
        let none = Homes {
            homes: Vec::new(alloc),
            worn: Vec::new(alloc),
        };
        none.renewed(alloc, &[], flat)
    }
}
