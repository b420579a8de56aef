//! The listing of a page table.
ghost use Rattle.std.specs.Prelude.{◌≡◌, ◌<◌, ◌≤◌, ◌+◌, ◌*◌, ◌^◌, ◌++◌, IfOk, OnOk, Some};
ghost use Rattle.std.specs.BTreeMap.{get};
ghost use Rattle.wf_flat.specs.Ordered.{IsOrdered};
ghost use Rattle.wf_homes.specs.Entries as entries;
ghost use Rattle.wf_homes.specs.Entries.{data_leaf, entry_for};
ghost use Rattle.wf_homes.specs.Homes.{Homes as HomesValue};
ghost use Rattle.wf_tables.specs.Index.{IsIndex, tenant_cmp};
ghost use Rattle.wf_tables.specs.Parts.{below_listed, leaves_listed, uppers_listed, view_line};
ghost use Rattle.wf_tables.specs.Tables.{node_lines, tables_lines, view_listed, word_listed};

use crate::homes::{Homes, Tenant};
use crate::index::index_of;
use std::alloc::Global;
use std::collections::BTreeMap;
use wf_flat::{Flat, FlatPage};
use wf_outside::{Memory, PAGE_WORDS};
use wf_sv39::{Leaf, pte_leaf, pte_node};
use wf_text::{push_decimal, push_hex};

// The frame of a tenant.
fn home_of(index: &BTreeMap<Tenant, u32>, tenant: Tenant) -> Option<u32>
    ensures { result ≡ get tenant_cmp index.now tenant }
{
    index.get(&tenant).copied()
}

// The leaf of a page of data.
fn data_leaf(index: &BTreeMap<Tenant, u32>, page: &FlatPage) -> u64
    ensures { (homes : HomesValue) → IsIndex index.now homes.homes
        → result ≡ data_leaf homes (Some page.now) }
{
    match home_of(index, Tenant::Data { page: page.number }) {
        Some(frame) => {
            let leaf = if page.write { Leaf::Write } else { Leaf::Read };
            pte_leaf(frame, leaf)
        }
        None => 0,
    }
}

// The leaf of a page that a view shares with others.
fn shared_leaf(index: &BTreeMap<Tenant, u32>, generation: u32, page: u32, flat: &Flat) -> u64
    requires { IsOrdered flat.now }
    ensures { (homes : HomesValue) → IsIndex index.now homes.homes
        → result ≡ entries.shared_leaf homes flat.now generation page }
{
    if !flat.has_met(generation, page) {
        return 0;
    }
    match flat.data_page(u64::from(page)) {
        Some(page) => data_leaf(index, page),
        None => 0,
    }
}

// The entry for a page in a node of level 0.
fn leaf_for(index: &BTreeMap<Tenant, u32>, generation: u32, page: u32, flat: &Flat) -> u64
    requires { IsOrdered flat.now }
    ensures { (homes : HomesValue) → IsIndex index.now homes.homes
        → result ≡ entry_for homes flat.now generation 0 page }
{
    match home_of(index, Tenant::Text { generation, page }) {
        Some(frame) => pte_leaf(frame, Leaf::Private),
        None => shared_leaf(index, generation, page, flat),
    }
}

// An entry that points to the node in a frame, if there is one.
fn pointer_to(home: Option<u32>) -> u64
    ensures { result ≡ entries.pointer_to home }
{
    match home {
        Some(frame) => pte_node(frame),
        None => 0,
    }
}

// The line of a word, if it is not 0.
#[tactic(auto, unfolding(crate::specs::Tables::word_line))]
fn push_word(out: &mut Vec<u8>, level: u8, frame: u32, i: u32, word: u64) -> Result<(), Memory>
    ensures { OnOk result (out.new.items ≡ out.old.items ++ word_listed level frame i word) }
{
    if word == 0 {
        return Ok(());
    }
    out.extend_from_slice(b"| ")?;
    push_decimal(out, u64::from(level))?;
    out.push(b' ')?;
    push_decimal(out, u64::from(frame))?;
    out.push(b' ')?;
    push_decimal(out, u64::from(i))?;
    out.push(b' ')?;
    push_hex(out, word)?;
    out.push(b'\n')?;
    Ok(())
}

// A node of a generation's page table, by its prefix, and the frame in which it lies.
#[derive(Clone, Copy)]
struct TableNode {
    generation: u32,
    prefix: u32,
    frame: u32,
}

// The lines of so many words of a node of level 0.
fn push_leaves(
    out: &mut Vec<u8>,
    index: &BTreeMap<Tenant, u32>,
    node: TableNode,
    count: u32,
    flat: &Flat,
) -> Result<(), Memory>
    requires ordered { IsOrdered flat.now }
    requires low { node.prefix < 2 ^ 18 }
    requires few { count ≤ PAGE_WORDS }
    ensures { OnOk result ((homes : HomesValue) → IsIndex index.now homes.homes → out.new.items
        ≡ out.old.items
        ++ leaves_listed homes flat.now node.generation node.prefix node.frame count) }
{
    for i in 0..count {
        let page = node.prefix * PAGE_WORDS as u32 + i;
        let word = leaf_for(index, node.generation, page, flat);
        push_word(out, 0, node.frame, i, word)?;
    }
    Ok(())
}

// A word of a node of level 1, and the lines of the node of level 0 that it points to.
fn push_lower(
    out: &mut Vec<u8>,
    index: &BTreeMap<Tenant, u32>,
    upper: TableNode,
    i: u32,
    flat: &Flat,
) -> Result<(), Memory>
    requires ordered { IsOrdered flat.now }
    requires low { upper.prefix < 2 ^ 9 }
    requires within { i < PAGE_WORDS }
    ensures { OnOk result ((homes : HomesValue) → IsIndex index.now homes.homes → out.new.items
        ≡ out.old.items
        ++ below_listed homes flat.now upper.generation 0 (upper.prefix * PAGE_WORDS + i)
        upper.frame i) }
{
    let generation = upper.generation;
    let prefix = upper.prefix * PAGE_WORDS as u32 + i;
    let home = home_of(
        index,
        Tenant::Node {
            generation,
            level: 0,
            prefix,
        },
    );
    push_word(out, 1, upper.frame, i, pointer_to(home))?;
    if let Some(frame) = home {
        let node = TableNode {
            generation,
            prefix,
            frame,
        };
        push_leaves(out, index, node, PAGE_WORDS as u32, flat)?;
    }
    Ok(())
}

// The lines of so many words of a node of level 1, and of the nodes that they point to.
fn push_lowers(
    out: &mut Vec<u8>,
    index: &BTreeMap<Tenant, u32>,
    node: TableNode,
    count: u32,
    flat: &Flat,
) -> Result<(), Memory>
    requires ordered { IsOrdered flat.now }
    requires low { node.prefix < 2 ^ 9 }
    requires few { count ≤ PAGE_WORDS }
    ensures { OnOk result ((homes : HomesValue) → IsIndex index.now homes.homes → out.new.items
        ≡ out.old.items
        ++ uppers_listed homes flat.now node.generation 0 node.prefix node.frame count) }
{
    for i in 0..count {
        push_lower(out, index, node, i, flat)?;
    }
    Ok(())
}

// A word of a root, and the lines of the node of level 1 that it points to.
fn push_middle(
    out: &mut Vec<u8>,
    index: &BTreeMap<Tenant, u32>,
    generation: u32,
    prefix: u32,
    frame: u32,
    flat: &Flat,
) -> Result<(), Memory>
    requires ordered { IsOrdered flat.now }
    requires low { prefix < 2 ^ 9 }
    ensures { OnOk result ((homes : HomesValue) → IsIndex index.now homes.homes → out.new.items
        ≡ out.old.items ++ below_listed homes flat.now generation 1 prefix frame prefix) }
{
    let home = home_of(
        index,
        Tenant::Node {
            generation,
            level: 1,
            prefix,
        },
    );
    push_word(out, 2, frame, prefix, pointer_to(home))?;
    if let Some(lower) = home {
        let node = TableNode {
            generation,
            prefix,
            frame: lower,
        };
        push_lowers(out, index, node, PAGE_WORDS as u32, flat)?;
    }
    Ok(())
}

// The lines of so many words of a root, and of the nodes that they point to.
fn push_middles(
    out: &mut Vec<u8>,
    index: &BTreeMap<Tenant, u32>,
    generation: u32,
    frame: u32,
    count: u32,
    flat: &Flat,
) -> Result<(), Memory>
    requires ordered { IsOrdered flat.now }
    requires few { count ≤ PAGE_WORDS }
    ensures { OnOk result ((homes : HomesValue) → IsIndex index.now homes.homes → out.new.items
        ≡ out.old.items ++ uppers_listed homes flat.now generation 1 0 frame count) }
{
    for i in 0..count {
        push_middle(out, index, generation, i, frame, flat)?;
    }
    Ok(())
}

// The first line of a listing, by the frame of the root.
#[tactic(auto, unfolding(crate::specs::Parts::view_line))]
fn push_view(out: &mut Vec<u8>, generation: u32, home: Option<u32>) -> Result<(), Memory>
    ensures { OnOk result (out.new.items ≡ out.old.items ++ view_line generation home) }
{
    out.extend_from_slice(b"| view ")?;
    push_decimal(out, u64::from(generation))?;
    match home {
        Some(root) => {
            out.extend_from_slice(b" root ")?;
            push_decimal(out, u64::from(root))?;
        }
        None => out.extend_from_slice(b" none")?,
    }
    out.push(b'\n')?;
    Ok(())
}

// The listing of a page table, by the frame of its root.
fn view_listing(
    alloc: Global,
    index: &BTreeMap<Tenant, u32>,
    generation: u32,
    home: Option<u32>,
    flat: &Flat,
) -> Result<Vec<u8>, Memory>
    requires { IsOrdered flat.now }
    ensures { IfOk result (λ lines. (homes : HomesValue) → IsIndex index.now homes.homes
        → lines.items
        ≡ view_listed (node_lines homes flat.now generation 2 0) generation home) }
{
    let mut out = Vec::new(alloc);
    push_view(&mut out, generation, home)?;
    if let Some(root) = home {
        push_middles(&mut out, index, generation, root, PAGE_WORDS as u32, flat)?;
    }
    Ok(out)
}

/// The listing of a generation's page table: the frame of its root, and each word that is not 0, a
/// pointer before the node that it points to. It takes time in the nodes of the table and in the
/// homes, and in the logarithm of what the state has.
pub fn tables_listing(
    alloc: Global,
    generation: u32,
    homes: &Homes,
    flat: &Flat,
) -> Result<Vec<u8>, Memory>
    requires { IsOrdered flat.now }
    ensures { IfOk result (λ lines. lines.items ≡ tables_lines generation homes.now flat.now) }
{
    let index = index_of(alloc, &homes.homes)?;
    let root = home_of(
        &index,
        Tenant::Node {
            generation,
            level: 2,
            prefix: 0,
        },
    );
    view_listing(alloc, &index, generation, root, flat)
}
