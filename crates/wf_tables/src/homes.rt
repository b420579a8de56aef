//! Homes: the frame in which each page and each node lies.
ghost use Rattle.std.specs.Prelude.{◌≡◌};
ghost use Rattle.wf_tables.specs.Settled as settled;

use std::marker::Model;
use wf_flat::{Entry, Event};

/// What lies in a frame: a page of a generation's text; a page of data; or a node of a generation's
/// page table, by its level and its prefix.
#[derive(Clone, Copy, Debug, PartialEq, Eq, PartialOrd, Ord)]
pub enum Tenant {
    Text {
        generation: u32,
        page: u32,
    },
    Data {
        page: u32,
    },
    Node {
        generation: u32,
        level: u8,
        prefix: u32,
    },
}

/// A tenant, and the frame that is its home.
#[derive(Clone, Copy, Debug, PartialEq, Eq)]
pub struct Home {
    pub tenant: Tenant,
    pub frame: u32,
}

/// Each tenant with its frame, and the frames that are worn, which are no home ever again.
#[derive(Drop)]
pub struct Homes {
    pub homes: Vec<Home>,
    pub worn: Vec<u32>,
}

impl Model for Homes {
    ghost use Rattle.std.specs.Prelude.{map};
    ghost use Rattle.wf_homes.specs.Homes.{Homes as HomesValue};
    ghost use Rattle.wf_tables.specs.Values.{home_value};

    ghost Value = { HomesValue };

    ghost view = { λ h. record { homes = map home_value h.homes.items; worn = h.worn.items } };
}

// The event changes what lies in frames.
fn changes_tenants(event: Event) -> bool
    ensures { result ≡ settled.changes_tenants event }
{
    match event {
        Event::Map { .. } => true,
        Event::Gone { .. } => true,
        Event::Born { .. } => true,
        Event::Dead { .. } => true,
        Event::Fetch { .. } => false,
        Event::Look { .. } => false,
        Event::Take { .. } => false,
        Event::Put { .. } => false,
        Event::Swap { .. } => false,
        Event::Miss { .. } => false,
        Event::End { .. } => false,
        Event::Again { .. } => false,
        Event::Wait { .. } => false,
        Event::Enter => false,
        Event::Sync { .. } => false,
        Event::Trap { .. } => false,
        Event::Exit { .. } => false,
        Event::Out { .. } => false,
        Event::Idle => false,
        Event::Going { .. } => false,
        Event::Ending { .. } => false,
        Event::Move { .. } => false,
        Event::Refused { .. } => false,
    }
}

/// Whether one of the entries changes what lies in frames: a page comes or is gone, or a generation
/// is born or dead.
pub fn change_tenants(entries: &[Entry]) -> bool
    ensures { result ≡ settled.change_tenants entries.now }
{
    entries.iter().any(|entry| changes_tenants(entry.event))
}
