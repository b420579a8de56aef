//! Where pages and nodes lie at the start of a run: in frames one behind another.
ghost use Rattle.std.specs.Prelude.{◌≡◌, ◌<◌, ◌+◌, ◌++◌, ◌^◌, IfOk, OnOk, length};
ghost use Rattle.std.specs.List.{flat_map};
ghost use Rattle.wf_outside.specs.Lists.{IsRising};
ghost use Rattle.wf_flat.specs.Ordered.{page_numbers};
ghost use Rattle.wf_homes.specs.Homes.{nodes_below, tree_nodes};
ghost use Rattle.wf_homes.specs.Kept.{record_of};
ghost use Rattle.wf_start.specs.Layout.{nodes_from, pages_from, text_from};

use std::alloc::Global;
use wf_flat::{FlatPage, Stage, add_places};
use wf_outside::{Memory, PAGE_WORDS, Page};
use wf_views::{NodeAt, PageAt, Pages, TextAt};

// A page of text that lies in a frame.
fn text_in(page: &Page, frame: u32) -> TextAt
    ensures { result ≡ record { page = page.now.number; frame = frame } }
{
    TextAt {
        page: page.number,
        frame,
    }
}

/// Pages of text that lie in the frames from `first` on.
pub fn text_at(alloc: Global, first: u32, pages: &[Page]) -> Result<Vec<TextAt>, Memory>
    requires { first + length pages.now < 2 ^ 32 }
    ensures { IfOk result (λ text. text.items ≡ text_from first pages.now) }
{
    let mut text = Vec::new(alloc);
    for (i, page) in pages.iter().enumerate() {
        text.push(text_in(page, first + i as u32))?;
    }
    Ok(text)
}

// The record of a page of data that lies in a frame.
fn page_at(page: &FlatPage, frame: u32) -> PageAt
    ensures { result ≡ record_of page.now frame }
{
    PageAt {
        page: page.number,
        write: page.write,
        frame,
        going: page.stage == Stage::Going,
        ending: page.stage == Stage::Ending,
    }
}

/// The records of pages of data that lie in the frames from `first` on.
pub fn pages_at(alloc: Global, first: u32, pages: &[FlatPage]) -> Result<Pages, Memory>
    requires few { first + length pages.now < 2 ^ 32 }
    requires rising { IsRising (page_numbers pages.now) }
    ensures { IfOk result (λ made. made.items ≡ pages_from first pages.now) }
{
    let mut made = Pages::new(alloc);
    made.reserve(pages.len() as u64)?;
    for (i, page) in pages.iter().enumerate() {
        made.add(page_at(page, first + i as u32));
    }
    Ok(made)
}

// The nodes at levels 1 and 0 of 512 places, of which some are reached, come to others.
fn push_below(nodes: &mut Vec<(u8, u32)>, upper: u32, reach: &[u32]) -> Result<(), Memory>
    ensures { OnOk result (nodes.new.items ≡ nodes.old.items ++ nodes_below reach.now upper) }
{
    nodes.push((1, upper))?;
    for place in reach {
        if *place / PAGE_WORDS as u32 == upper {
            nodes.push((0, *place))?;
        }
    }
    Ok(())
}

// The nodes at levels 1 and 0 come to others.
fn push_all_below(nodes: &mut Vec<(u8, u32)>, uppers: &[u32], reach: &[u32]) -> Result<(), Memory>
    ensures { OnOk result
        (nodes.new.items ≡ nodes.old.items ++ flat_map (nodes_below reach.now) uppers.now) }
{
    for upper in uppers {
        push_below(nodes, *upper, reach)?;
    }
    Ok(())
}

/// The nodes of a page table that reaches these places, each by its level and prefix.
pub fn tree_of(alloc: Global, reach: &[u32]) -> Result<Vec<(u8, u32)>, Memory>
    ensures { IfOk result (λ nodes. nodes.items ≡ tree_nodes reach.now) }
{
    let mut uppers = Vec::new(alloc);
    add_places(&mut uppers, reach)?;
    let mut nodes = Vec::new(alloc);
    nodes.push((2, 0))?;
    push_all_below(&mut nodes, &uppers, reach)?;
    Ok(nodes)
}

/// Nodes that lie in the frames from `first` on.
pub fn nodes_at(alloc: Global, first: u32, nodes: &[(u8, u32)]) -> Result<Vec<NodeAt>, Memory>
    requires { first + length nodes.now < 2 ^ 32 }
    ensures { IfOk result (λ made. made.items ≡ nodes_from first nodes.now) }
{
    let mut made = Vec::new(alloc);
    for (i, node) in nodes.iter().enumerate() {
        made.push(NodeAt {
            level: node.0,
            prefix: node.1,
            frame: first + i as u32,
        })?;
    }
    Ok(made)
}
