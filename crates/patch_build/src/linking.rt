//! The sections of a patch are relocated.
ghost use Rattle.std.specs.Prelude.{◌≡◌, ◌≤◌, None, Some, length, IfOk, IfErr, OnOk, IsSome};
ghost use Rattle.elf_link.specs.Applied.{relocated};
ghost use Rattle.elf_link.specs.Links.{link_of, place_of, size_of, AreLow};
ghost use Rattle.patch_build.specs.Links.{linked_as, linked_of, fault_in, group_fault, link_fault, HasPlaces, AreSized};

use crate::BuildFault;
use crate::region::is_loaded;
use elf_link::{LinkFault, relocate};
use elf_read::{Elf, RelaGroup};
use elf_syms::Names;
use std::alloc::Global;
use std::marker::Model;
use wf_outside::Memory;

/// A section after relocation: its bytes, or the first of its entries that can't be applied. One
/// that is not loaded has neither.
#[derive(Drop)]
pub struct Linked {
    pub bytes: Vec<u8>,
    pub fault: Option<LinkFault>,
}

impl Model for Linked {
    ghost use Rattle.patch_build.specs.Links.{LinkedValue};

    ghost Value = { LinkedValue };

    ghost view = { λ l. record { bytes = l.bytes.items; fault = l.fault } };
}

// A section that is loaded, relocated.
fn link_section(
    alloc: Global,
    object: &Elf,
    section: u32,
    places: &[Option<u64>],
    names: &Names,
) -> Result<Linked, Memory>
    requires all { length places.now ≡ length object.now.sections }
    requires loaded { IsSome (place_of places.now section) }
    requires low { AreLow places.now object.now.sections }
    ensures linked { IfOk result (λ linked. linked
        ≡ linked_as (relocated (link_of object.now places.now names.now section))) }
    ensures sized { IfOk result (λ linked. length linked.bytes ≤ size_of object.now section) }
{
    match relocate(alloc, object, section, places, names) {
        Ok(bytes) => Ok(Linked { bytes, fault: None }),
        Err(LinkFault::Memory) => Err(Memory),
        Err(LinkFault::Rule { group, index, rule }) => Ok(Linked {
            bytes: Vec::new(alloc),
            fault: Some(LinkFault::Rule { group, index, rule }),
        }),
    }
}

/// Each section of an object at these places, by number.
pub fn linked_of(
    alloc: Global,
    object: &Elf,
    places: &[Option<u64>],
    names: &Names,
) -> Result<Vec<Linked>, Memory>
    requires all { length places.now ≡ length object.now.sections }
    requires placed { HasPlaces object.now.sections places.now }
    requires low { AreLow places.now object.now.sections }
    ensures linked { IfOk result
        (λ linked. linked.items ≡ linked_of object.now places.now names.now) }
    ensures sized { IfOk result (λ linked. AreSized object.now.sections linked.items) }
{
    let mut sections = Vec::new(alloc);
    for (number, section) in object.sections().iter().enumerate() {
        if is_loaded(section) {
            sections.push(link_section(alloc, object, number as u32, places, names)?)?;
        } else {
            sections.push(Linked {
                bytes: Vec::new(alloc),
                fault: None,
            })?;
        }
    }
    Ok(sections)
}

// The fault of a section, where it stands in this relocation section.
fn fault_in(group: u32, fault: Option<LinkFault>) -> Option<BuildFault>
    ensures { result ≡ fault_in group fault }
{
    match fault {
        None => None,
        Some(LinkFault::Memory) => None,
        Some(
            LinkFault::Rule {
                group: section,
                index,
                rule,
            },
        ) => {
            if section == group {
                return Some(BuildFault::Link {
                    group: section,
                    index,
                    rule,
                });
            }
            None
        }
    }
}

// The fault of the section that a relocation section changes, where it stands in that.
fn group_fault(linked: &[Linked], group: &RelaGroup) -> Option<BuildFault>
    ensures { result ≡ group_fault linked.now group.now }
{
    match linked.get(group.target as usize) {
        None => None,
        Some(section) => fault_in(group.section, section.fault),
    }
}

/// All entries could be applied; or the first that could not, relocation section by relocation
/// section.
pub fn check_links(linked: &[Linked], groups: &[RelaGroup]) -> Result<(), BuildFault>
    ensures ok { OnOk result (link_fault linked.now groups.now ≡ None) }
    ensures fault { IfErr result (λ fault. link_fault linked.now groups.now ≡ Some fault) }
{
    for group in groups {
        if let Some(fault) = group_fault(linked, group) {
            return Err(fault);
        }
    }
    Ok(())
}
