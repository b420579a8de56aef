//! The state at the start.
ghost use Rattle.std.specs.Prelude.{◌≡◌, ◌<◌, ◌≤◌, ◌++◌, ◌^◌, ◌+◌, [], IfOk, OnOk, Err, ℕ, map, nat_eq, replicate, true};
ghost use Rattle.std.specs.List.{IsDistinct};
ghost use Rattle.wf_outside.specs.Pages.{IsPage};
ghost use Rattle.wf_outside.specs.Images.{text_numbers, data_numbers};
ghost use Rattle.wf_outside.specs.Lists.{IsRising};
ghost use Rattle.wf_flat.specs.Lists.{sorted_by};
ghost use Rattle.wf_flat.specs.Ordered.{IsOrdered};
ghost use Rattle.wf_flat.specs.Counts.{used_of};
ghost use Rattle.wf_flat.specs.Boot.{fresh_page, stack_page, stack_of, stacks_of, numbered_from, boot_pages, boot_hart, boot_harts, boot_gen, boot_of, places_with};

use crate::counting::{add_places, frames_in};
use crate::{Flat, FlatHart, FlatPage, Gen, Life, Stage};
use rv_inst::Arch;
use std::alloc::{AllocFailed, Global};
use wf_outside::{DATA_END, DATA_END_PAGE, DataPage, Image, Limits, Memory, PAGE_WORDS, Page};

// The same page.
fn copy_of(alloc: Global, page: &Page) -> Result<Page, Memory>
    ensures { IfOk result (λ copy. copy ≡ page.now) }
{
    Ok(Page {
        number: page.number,
        words: page.words.to_vec(alloc)?,
    })
}

// The same pages.
fn copies_of(alloc: Global, pages: &[Page]) -> Result<Vec<Page>, Memory>
    ensures { IfOk result (λ copies. copies.items ≡ pages.now) }
{
    let mut copies = Vec::new(alloc);
    for page in pages {
        copies.push(copy_of(alloc, page)?)?;
    }
    Ok(copies)
}

// The same pages, by rising number.
fn sorted_text(alloc: Global, pages: &[Page]) -> Result<Vec<Page>, Memory>
    requires { IsDistinct nat_eq (text_numbers pages.now) }
    ensures sorted { IfOk result
        (λ copies. copies.items ≡ sorted_by (λ page. page.number) pages.now) }
    ensures rising { IfOk result (λ copies. IsRising (text_numbers copies.items)) }
{
    let mut text = copies_of(alloc, pages)?;
    text.sort_by_key(|page| page.number)?;
    Ok(text)
}

// A page that nobody holds and that was not written yet.
fn fresh(number: u32, write: bool, words: Vec<u64>) -> FlatPage
    requires { IsPage number words.items }
    ensures { result ≡ fresh_page (record { number = number; write = write; words = words.items }) }
{
    FlatPage {
        number,
        write,
        stage: Stage::Here,
        holder: None,
        words,
        writes: 0,
        birth: 0,
    }
}

// A fresh page with the words of an image's.
fn fresh_copy(alloc: Global, page: &DataPage) -> Result<FlatPage, Memory>
    ensures { IfOk result (λ copy. copy ≡ fresh_page page.now) }
{
    Ok(fresh(page.number, page.write, page.words.to_vec(alloc)?))
}

// Fresh pages with the words of an image's.
fn fresh_copies(alloc: Global, pages: &[DataPage]) -> Result<Vec<FlatPage>, Memory>
    ensures { IfOk result (λ copies. copies.items ≡ map fresh_page pages.now) }
{
    let mut copies = Vec::new(alloc);
    for page in pages {
        copies.push(fresh_copy(alloc, page)?)?;
    }
    Ok(copies)
}

// The same, by rising number.
fn sorted_copies(alloc: Global, pages: &[DataPage]) -> Result<Vec<FlatPage>, Memory>
    requires { IsDistinct nat_eq (data_numbers pages.now) }
    ensures { IfOk result
        (λ copies. copies.items ≡ sorted_by (λ page. page.number) (map fresh_page pages.now)) }
{
    let mut copies = fresh_copies(alloc, pages)?;
    copies.sort_by_key(|page| page.number)?;
    Ok(copies)
}

// So many words that are 0.
fn zeros(alloc: Global, n: usize) -> Result<Vec<u64>, Memory>
    ensures { IfOk result (λ words. words.items ≡ replicate n 0) }
{
    Ok(vec![in alloc; 0; n]?)
}

// A page of a stack.
fn fresh_stack(alloc: Global, number: u32) -> Result<FlatPage, Memory>
    requires { number < 2 ^ 26 }
    ensures { IfOk result (λ page. page ≡ fresh_page (stack_page number)) }
{
    Ok(fresh(number, true, zeros(alloc, PAGE_WORDS)?))
}

// The stack of a hart comes behind the pages.
fn push_stack(alloc: Global, pages: &mut Vec<FlatPage>, i: u8) -> Result<(), Memory>
    requires { i < 64 }
    ensures { OnOk result (pages.new.items ≡ pages.old.items ++ stack_of i) }
{
    let first = DATA_END_PAGE + 12 + 16 * i as u32;
    pages.push(fresh_stack(alloc, first)?)?;
    pages.push(fresh_stack(alloc, first + 1)?)?;
    pages.push(fresh_stack(alloc, first + 2)?)?;
    pages.push(fresh_stack(alloc, first + 3)?)?;
    Ok(())
}

// The stacks of the first harts come behind the pages.
#[tactic(auto, using(crate::proofs::BootLemmas::stack_steps))]
fn push_stacks(alloc: Global, pages: &mut Vec<FlatPage>, harts: u8) -> Result<(), Memory>
    requires { harts ≤ 64 }
    ensures { OnOk result (pages.new.items ≡ pages.old.items ++ stacks_of harts) }
{
    for i in 0..harts {
        push_stack(alloc, pages, i)?;
    }
    Ok(())
}

// The mappings are numbered from 0 on.
fn number_pages(pages: &mut [FlatPage])
    ensures { pages.new ≡ numbered_from 0 pages.old }
{
    for i in 0..pages.len() {
        let page = &mut pages[i];
        page.birth = i as u64;
    }
}

// All data pages at the start.
fn data_pages(alloc: Global, image: &Image, harts: u8) -> Result<Vec<FlatPage>, Memory>
    requires { harts ≤ 64 }
    ensures { IfOk result (λ pages. pages.items ≡ boot_pages image.now harts) }
{
    let mut pages = sorted_copies(alloc, &image.pages)?;
    push_stacks(alloc, &mut pages, harts)?;
    number_pages(&mut pages);
    Ok(pages)
}

// A hart at the start.
fn hart(alloc: Global, entry: u64, i: u8) -> FlatHart
    ensures { result ≡ boot_hart entry i }
{
    let mut x = [0; 32];
    x[2] = DATA_END + 0x1_0000 + 0x1_0000 * i as u64;
    x[10] = i as u64;
    FlatHart {
        generation: 0,
        arch: Arch { pc: entry, x },
        fetched: None,
        looked: None,
        put: false,
        moved: Vec::new(alloc),
        reservation: None,
        life: Life::Running,
    }
}

// The first harts at the start.
#[tactic(auto, using(crate::proofs::BootLemmas::hart_steps))]
fn first_harts(alloc: Global, entry: u64, n: u8) -> Result<Vec<FlatHart>, Memory>
    ensures { IfOk result (λ harts. harts.items ≡ boot_harts entry n) }
{
    let mut harts = Vec::new(alloc);
    for i in 0..n {
        harts.push(hart(alloc, entry, i))?;
    }
    Ok(harts)
}

/// The numbers of pages of text.
pub fn numbers_of_text(alloc: Global, pages: &[Page]) -> Result<Vec<u32>, Memory>
    ensures { IfOk result (λ numbers. numbers.items ≡ text_numbers pages.now) }
{
    Ok(pages.iter().map(|page| page.number).collect(alloc)?)
}

// The numbers of data pages.
fn numbers_of_data(alloc: Global, pages: &[FlatPage]) -> Result<Vec<u32>, Memory>
    ensures { IfOk result (λ numbers. numbers.items ≡ map (λ page. page.number) pages.now) }
{
    Ok(pages.iter().map(|page| page.number).collect(alloc)?)
}

// The places of these pages.
fn places_of(alloc: Global, text: &[Page], pages: &[FlatPage]) -> Result<Vec<u32>, Memory>
    ensures places { IfOk result
        (λ places. places.items
        ≡ places_with (places_with [] (text_numbers text.now))
        (map (λ page. page.number) pages.now)) }
    ensures rising { IfOk result (λ places. IsRising places.items) }
{
    let mut places = Vec::new(alloc);
    add_places(&mut places, &numbers_of_text(alloc, text)?)?;
    add_places(&mut places, &numbers_of_data(alloc, pages)?)?;
    Ok(places)
}

// Generation 0, where these are the data pages.
fn first_gen(alloc: Global, image: &Image, pages: &[FlatPage]) -> Result<Gen, Memory>
    ensures { IfOk result
        (λ version. (harts : ℕ) → pages.now ≡ boot_pages image.now harts
        → version ≡ boot_gen image.now harts) }
{
    let text = sorted_text(alloc, &image.text)?;
    let reach = places_of(alloc, &text, pages)?;
    Ok(Gen {
        number: 0,
        parent: None,
        text,
        jumps: Vec::new(alloc),
        patches: 0,
        reach,
        live: true,
    })
}

/// Why there is no state at the start.
#[derive(Clone, Copy, Debug, PartialEq, Eq)]
pub enum BootFault {
    /// The pages and the nodes of the tables need more frames than there are; both are counts.
    NoFrames { need: u64, have: u64 },
    /// Memory ran out.
    Memory,
}

impl From<Memory> for BootFault {
    ghost use Rattle.std.specs.Prelude.{◌≡◌};
    ghost use Rattle.wf_flat.specs.declared.booting.BootFault.TheVariants as faults;

    ghost from_gives = { λ _ e. e ≡ faults.Memory };

    fn from(_: Memory) -> Self {
        BootFault::Memory
    }
}

impl<T: Drop> From<AllocFailed<T>> for BootFault {
    ghost use Rattle.std.specs.Prelude.{◌≡◌};
    ghost use Rattle.wf_flat.specs.declared.booting.BootFault.TheVariants as faults;

    ghost from_gives = { λ _ e. e ≡ faults.Memory };

    fn from(_: AllocFailed<T>) -> Self {
        BootFault::Memory
    }
}

/// The state of so many harts, from 1 to 64, at the start of an image: its pages and text by rising
/// number, behind them the harts' stacks, and no hart in a try.
///
/// It copies the image, and sorts its pages.
pub fn boot(alloc: Global, image: &Image, harts: u8, limits: Limits) -> Result<Flat, BootFault>
    requires some { 1 ≤ harts }
    requires few { harts ≤ 64 }
    ensures ok { IfOk result (λ flat. flat ≡ boot_of image.now harts limits) }
    ensures ordered { IfOk result (λ flat. IsOrdered flat) }
    // The frames suffice, or both numbers say that they don't.
    ensures fits { OnOk result (used_of (boot_of image.now harts limits) ≤ limits.frames) }
    ensures no_frames { (need have : ℕ) → result ≡ Err (BootFault.NoFrames need have)
        → (need ≡ used_of (boot_of image.now harts limits)) × (have ≡ limits.frames)
        × (have < need) }
{
    let entry = image.entry;
    let pages = data_pages(alloc, image, harts)?;
    let first = first_gen(alloc, image, &pages)?;
    let need = frames_in(alloc, pages.len() as u64, &first)?;
    let have = limits.frames as u64;
    if need > have {
        return Err(BootFault::NoFrames { need, have });
    }
    let mut gens = Vec::new(alloc);
    gens.push(first)?;
    Ok(Flat {
        births: pages.len() as u64,
        pages,
        gens,
        harts: first_harts(alloc, entry, harts)?,
        met: Vec::new(alloc),
        inside: None,
        worn: 0,
        limits,
    })
}
