//! What lies in frames, in the order in which they are taken.
ghost use Rattle.std.specs.Prelude.{◌≡◌, ◌++◌, ◌∷◌, [], ◌/◌, OnOk, IfOk, map};
ghost use Rattle.std.specs.List.{flat_map};
ghost use Rattle.wf_outside.specs.Lists.{IsRising};
ghost use Rattle.wf_homes.specs.Homes as homes;
ghost use Rattle.wf_homes.specs.Homes.{DataOf, NodeOf, node_tenants, text_tenants, tree_nodes};
ghost use Rattle.wf_tables.specs.Nodes.{is_below, walked};
ghost use Rattle.wf_tables.specs.Values.{tenant_value};

use crate::homes::Tenant;
use std::alloc::Global;
use wf_flat::{Flat, FlatPage, Gen};
use wf_outside::{Memory, PAGE_WORDS};

// The pages of text of a generation, if it lives.
fn push_texts(out: &mut Vec<Tenant>, version: &Gen) -> Result<(), Memory>
    ensures { OnOk result
        (map tenant_value out.new.items
        ≡ map tenant_value out.old.items ++ text_tenants version.now) }
{
    if version.live {
        for page in &version.text {
            out.push(Tenant::Text {
                generation: version.number,
                page: page.number,
            })?;
        }
    }
    Ok(())
}

// The pages of text of all generations.
fn push_all_texts(out: &mut Vec<Tenant>, gens: &[Gen]) -> Result<(), Memory>
    ensures { OnOk result
        (map tenant_value out.new.items
        ≡ map tenant_value out.old.items ++ flat_map text_tenants gens.now) }
{
    for version in gens {
        push_texts(out, version)?;
    }
    Ok(())
}

// The pages of data.
fn push_data(out: &mut Vec<Tenant>, pages: &[FlatPage]) -> Result<(), Memory>
    ensures { OnOk result
        (map tenant_value out.new.items
        ≡ map tenant_value out.old.items ++ map (λ page. DataOf page.number) pages.now) }
{
    for page in pages {
        out.push(Tenant::Data { page: page.number })?;
    }
    Ok(())
}

// A node.
fn push_node(out: &mut Vec<Tenant>, generation: u32, level: u8, prefix: u32) -> Result<(), Memory>
    ensures { OnOk result
        (map tenant_value out.new.items
        ≡ map tenant_value out.old.items ++ NodeOf generation level prefix ∷ []) }
{
    out.push(Tenant::Node {
        generation,
        level,
        prefix,
    })?;
    Ok(())
}

// Whether the place is one of the 512 of this node.
fn is_below(place: u32, upper: Option<u32>) -> bool
    ensures { result ≡ is_below place upper }
{
    match upper {
        Some(upper) => place / PAGE_WORDS as u32 == upper,
        None => false,
    }
}

// The nodes at levels 1 and 0 of places.
fn push_walked(out: &mut Vec<Tenant>, generation: u32, reach: &[u32]) -> Result<(), Memory>
    ensures { OnOk result
        (map tenant_value out.new.items ≡ map tenant_value out.old.items
        ++ map (λ node. NodeOf generation node.0 node.1) (walked None reach.now)) }
{
    let mut last = None;
    for place in reach {
        if !is_below(*place, last) {
            let upper = *place / PAGE_WORDS as u32;
            push_node(out, generation, 1, upper)?;
            last = Some(upper);
        }
        push_node(out, generation, 0, *place)?;
    }
    Ok(())
}

// The nodes of a page table that reaches these places.
fn push_tree(out: &mut Vec<Tenant>, generation: u32, reach: &[u32]) -> Result<(), Memory>
    requires { IsRising reach.now }
    ensures { OnOk result
        (map tenant_value out.new.items ≡ map tenant_value out.old.items
        ++ map (λ node. NodeOf generation node.0 node.1) (tree_nodes reach.now)) }
{
    push_node(out, generation, 2, 0)?;
    push_walked(out, generation, reach)?;
    Ok(())
}

// The nodes of a generation's page table, if it lives.
fn push_nodes(out: &mut Vec<Tenant>, version: &Gen) -> Result<(), Memory>
    ensures { OnOk result
        (map tenant_value out.new.items
        ≡ map tenant_value out.old.items ++ node_tenants version.now) }
{
    if version.live {
        push_tree(out, version.number, &version.reach)?;
    }
    Ok(())
}

// The nodes of all page tables.
fn push_all_nodes(out: &mut Vec<Tenant>, gens: &[Gen]) -> Result<(), Memory>
    ensures { OnOk result
        (map tenant_value out.new.items
        ≡ map tenant_value out.old.items ++ flat_map node_tenants gens.now) }
{
    for version in gens {
        push_nodes(out, version)?;
    }
    Ok(())
}

/// Whatever lies in a frame: pages of text by generation and number, pages of data by number, and
/// nodes by generation. It takes one pass.
pub fn tenants_of(alloc: Global, flat: &Flat) -> Result<Vec<Tenant>, Memory>
    ensures { IfOk result
        (λ tenants. map tenant_value tenants.items ≡ homes.tenants_of flat.now) }
{
    let mut tenants = Vec::new(alloc);
    push_all_texts(&mut tenants, &flat.gens)?;
    push_data(&mut tenants, &flat.pages)?;
    push_all_nodes(&mut tenants, &flat.gens)?;
    Ok(tenants)
}
