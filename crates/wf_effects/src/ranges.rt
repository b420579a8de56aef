//! Ranges of pages, and what stands in them.
ghost use Rattle.std.specs.Prelude.{◌≡◌, ◌<◌, ◌≤◌, ◌+◌, ◌^◌, ◌&&◌, true, length, is_some, IfOk, OnOk};
ghost use Rattle.std.specs.List.{range_with_len};
ghost use Rattle.wf_outside.specs.declared.sizes.TheConstants.{ADDRESS_PAGES};
ghost use Rattle.wf_flat.specs.Ordered.{IsOrdered};
ghost use Rattle.wf_flat.specs.Memory.{page_in};
ghost use Rattle.wf_outside.specs.Lists.{IsRising};
ghost use Rattle.wf_outside.specs.Images.{text_numbers};
ghost use Rattle.wf_effects.specs.Ranges as ranges;

use std::alloc::Global;
use wf_flat::{Flat, Gen, Stage};
use wf_outside::{DataPage, Memory, Page};

/// So many pages from one on, all of one right.
#[derive(Clone, Copy, Debug, PartialEq, Eq)]
pub struct PageRun {
    pub first: u32,
    pub count: u64,
    pub write: bool,
}

/// The numbers of so many pages from one on.
pub fn numbers_from(alloc: Global, first: u32, n: u64) -> Result<Vec<u32>, Memory>
    requires { first + n ≤ ADDRESS_PAGES }
    ensures { IfOk result (λ numbers. numbers.items ≡ range_with_len first n) }
{
    let mut numbers = Vec::new(alloc);
    for i in 0..n {
        numbers.push(first + i as u32)?;
    }
    Ok(numbers)
}

// Whether a page of data is there.
fn is_data(flat: &Flat, page: u32) -> bool
    requires { IsOrdered flat.now }
    ensures { result ≡ ranges.is_data flat.now page }
{
    flat.data_page(page as u64).is_some()
}

// Whether a page of data is Here.
fn is_page_here(flat: &Flat, page: u32) -> bool
    requires { IsOrdered flat.now }
    ensures { result ≡ ranges.is_page_here flat.now page }
{
    match flat.data_page(page as u64) {
        Some(found) => match found.stage {
            Stage::Here => true,
            Stage::Going => false,
            Stage::Ending => false,
        },
        None => false,
    }
}

// Whether a page of data is Ending.
fn is_page_ending(flat: &Flat, page: u32) -> bool
    requires { IsOrdered flat.now }
    ensures { result ≡ ranges.is_page_ending flat.now page }
{
    match flat.data_page(page as u64) {
        Some(found) => match found.stage {
            Stage::Here => false,
            Stage::Going => false,
            Stage::Ending => true,
        },
        None => false,
    }
}

// Whether a page is there, in text by rising number.
fn has_page(text: &[Page], page: u32) -> bool
    requires { IsRising (text_numbers text.now) }
    ensures { result ≡ is_some (page_in text.now page) }
{
    text.binary_search_by_key(&page, |found| found.number)
        .is_ok()
}

// Whether a page is text of a generation, which lives.
fn is_text_of(version: &Gen, page: u32) -> bool
    ensures { result ≡ (version.now.live && is_some (page_in version.now.text page)) }
{
    version.live && has_page(&version.text, page)
}

// Whether a page is text of a generation that lives.
fn is_live_text(flat: &Flat, page: u32) -> bool
    ensures { result ≡ ranges.is_live_text flat.now page }
{
    flat.gens.iter().any(|version| is_text_of(version, page))
}

/// The first of these pages that is Here, or text of a generation that lives. For each page it
/// takes time in the logarithm of the pages of data and of each text.
pub fn first_overlap(flat: &Flat, pages: &[u32]) -> Option<u32>
    requires { IsOrdered flat.now }
    ensures { result ≡ ranges.first_overlap flat.now pages.now }
{
    for page in pages {
        if is_page_here(flat, *page) || is_live_text(flat, *page) {
            return Some(*page);
        }
    }
    None
}

/// The first of these pages that is no page of data. For each page it takes time in the logarithm
/// of the pages of data.
pub fn first_absent(flat: &Flat, pages: &[u32]) -> Option<u32>
    requires { IsOrdered flat.now }
    ensures { result ≡ ranges.first_absent flat.now pages.now }
{
    for page in pages {
        if !is_data(flat, *page) {
            return Some(*page);
        }
    }
    None
}

/// The first of these pages that is Ending. For each page it takes time in the logarithm of the
/// pages of data.
pub fn first_leaving(flat: &Flat, pages: &[u32]) -> Option<u32>
    requires { IsOrdered flat.now }
    ensures { result ≡ ranges.first_leaving flat.now pages.now }
{
    for page in pages {
        if is_page_ending(flat, *page) {
            return Some(*page);
        }
    }
    None
}

// A page alone.
fn run_of(page: &DataPage) -> PageRun
    ensures { result ≡ ranges.run_of page.now }
{
    PageRun {
        first: page.number,
        count: 1,
        write: page.write,
    }
}

// Whether a page stands right behind a run, and has its right.
fn continues(run: &PageRun, page: &DataPage) -> bool
    ensures right { result ≡ ranges.continues run.now page.now }
    ensures few { result ≡ true → run.now.count < 2 ^ 32 }
{
    run.first <= page.number
        && u64::from(page.number - run.first) == run.count
        && run.write == page.write
}

// A run is one page longer.
fn lengthen(run: &mut PageRun)
    requires { run.old.count < 2 ^ 32 }
    ensures { run.new ≡ ranges.longer run.old }
{
    run.count += 1;
}

// One more page behind runs.
fn add_page(runs: &mut Vec<PageRun>, page: &DataPage) -> Result<(), Memory>
    ensures { OnOk result (runs.new.items ≡ ranges.with_behind runs.old.items page.now) }
{
    let len = runs.len();
    if len > 0 && continues(&runs[len - 1], page) {
        lengthen(&mut runs[len - 1]);
        return Ok(());
    }
    runs.push(run_of(page))?;
    Ok(())
}

/// The longest runs of consecutive pages of one right, of pages by rising number.
pub fn runs_of(alloc: Global, pages: &[DataPage]) -> Result<Vec<PageRun>, Memory>
    ensures { IfOk result (λ runs. runs.items ≡ ranges.runs_of pages.now) }
{
    let mut runs = Vec::new(alloc);
    for page in pages {
        add_page(&mut runs, page)?;
    }
    Ok(runs)
}
