//! Pages of data that are mapped.
ghost use Rattle.std.specs.Prelude.{◌≡◌, ℕ, List, ◌<◌, ◌≤◌, ◌+◌, ◌++◌, ◌^◌, false, IfOk, IfSome, OnErr, OnOk, length, map, nat_eq, option_copied, replicate};
ghost use Rattle.std.specs.List.{AllByRecursion, IsDistinct, range_with_len};
ghost use Rattle.wf_outside.specs.declared.sizes.TheConstants.{ADDRESS_PAGES, PAGE_WORDS};
ghost use Rattle.wf_outside.specs.Images.{data_numbers};
ghost use Rattle.wf_outside.specs.Lists.{IsRising};
ghost use Rattle.wf_flat.specs.Lists.{sorted_by};
ghost use Rattle.wf_flat.specs.Ordered.{IsOrdered, page_numbers};
ghost use Rattle.wf_effects.specs.Effects as effects;
ghost use Rattle.wf_effects.specs.Ranges.{is_data};

use crate::deltas::delta_of;
use crate::ranges::{PageRun, numbers_from};
use crate::reaches::{Reach, reaches_with, set_reaches};
use std::alloc::Global;
use wf_flat::{Flat, FlatPage, Stage};
use wf_outside::{DataPage, Delta, Memory, PAGE_WORDS};

// So many words that are 0.
fn zeros(alloc: Global, n: usize) -> Result<Vec<u64>, Memory>
    ensures { IfOk result (λ words. words.items ≡ replicate n 0) }
{
    Ok(vec![in alloc; 0; n]?)
}

// The words of a page.
fn same_words(alloc: Global, page: &DataPage) -> Result<Vec<u64>, Memory>
    ensures words { IfOk result (λ words. words.items ≡ page.now.words) }
    ensures whole { IfOk result (λ words. length words.items ≡ PAGE_WORDS) }
{
    Ok(page.words.to_vec(alloc)?)
}

// The words that pages have for one of this number, and else zeros.
fn shared_words(alloc: Global, shared: &[DataPage], number: u32) -> Result<Vec<u64>, Memory>
    requires { IsRising (data_numbers shared.now) }
    ensures words { IfOk result (λ words. words.items ≡ effects.shared_words shared.now number) }
    ensures whole { IfOk result (λ words. length words.items ≡ PAGE_WORDS) }
{
    match shared.binary_search_by_key(&number, |page| page.number) {
        Ok(at) => same_words(alloc, &shared[at]),
        Err(_) => zeros(alloc, PAGE_WORDS),
    }
}

// The words of a page that is mapped.
fn words_of(alloc: Global, delta: Option<&Delta>, number: u32) -> Result<Vec<u64>, Memory>
    requires { IfSome (option_copied delta) (λ delta. IsRising (data_numbers delta.shared)) }
    ensures words { IfOk result
        (λ words. words.items ≡ effects.words_of (option_copied delta.entry) number) }
    ensures whole { IfOk result (λ words. length words.items ≡ PAGE_WORDS) }
{
    match delta {
        Some(delta) => shared_words(alloc, &delta.shared, number),
        None => zeros(alloc, PAGE_WORDS),
    }
}

// A page that is mapped now.
fn mapped_page(
    alloc: Global,
    delta: Option<&Delta>,
    write: bool,
    number: u32,
    birth: u64,
) -> Result<FlatPage, Memory>
    requires rising { IfSome (option_copied delta) (λ delta. IsRising (data_numbers delta.shared)) }
    requires low { number < ADDRESS_PAGES }
    ensures { IfOk result
        (λ page. page ≡ effects.mapped_page (option_copied delta.entry) write number birth) }
{
    Ok(FlatPage {
        number,
        write,
        stage: Stage::Here,
        holder: None,
        words: words_of(alloc, delta, number)?,
        writes: 0,
        birth,
    })
}

// So many pages from one on, which are mapped now.
fn mapped_pages(
    alloc: Global,
    delta: Option<&Delta>,
    write: bool,
    first: u32,
    birth: u64,
    n: u64,
) -> Result<Vec<FlatPage>, Memory>
    requires rising { IfSome (option_copied delta) (λ delta. IsRising (data_numbers delta.shared)) }
    requires low { first + n ≤ ADDRESS_PAGES }
    requires few { birth + n < 2 ^ 64 }
    ensures { IfOk result
        (λ pages. pages.items
        ≡ effects.mapped_pages (option_copied delta.entry) write first birth n) }
{
    let mut pages = Vec::new(alloc);
    for i in 0..n {
        pages.push(mapped_page(alloc, delta, write, first + i as u32, birth + i)?)?;
    }
    Ok(pages)
}

// More pages come to those that are there, by rising number.
fn add_pages(pages: &mut Vec<FlatPage>, more: Vec<FlatPage>) -> Result<(), Memory>
    requires { IsDistinct nat_eq (page_numbers (pages.old.items ++ more.items)) }
    ensures sorted { OnOk result
        (pages.new.items ≡ sorted_by (λ page. page.number) (pages.old.items ++ more.items)) }
    ensures unchanged { OnErr result (pages.new.items ≡ pages.old.items) }
{
    let before = pages.len();
    let mut more = more;
    pages.append(&mut more)?;
    match pages.sort_by_key(|page| page.number) {
        Ok(()) => Ok(()),
        Err(_) => {
            pages.truncate(before);
            Err(Memory)
        }
    }
}

// The pages come to those of data, the generations reach these places, and so many births are
// numbered.
fn add_mapped(
    flat: &mut Flat,
    more: Vec<FlatPage>,
    reaches: &mut [Reach],
    n: u64,
) -> Result<(), Memory>
    requires distinct { IsDistinct nat_eq (page_numbers (flat.old.pages ++ more.items)) }
    requires reaches { length reaches.old ≡ length flat.old.gens }
    requires few { flat.old.births + n < 2 ^ 64 }
    ensures state { OnOk result ((numbers : List ℕ)
        → reaches.old ≡ map (effects.new_reach numbers) flat.old.gens
        → flat.new ≡ record flat.old {
          pages = sorted_by (λ page. page.number) (flat.old.pages ++ more.items);
          gens = map (effects.reaching numbers) flat.old.gens;
          births = flat.old.births + n;
        }) }
    ensures unchanged { OnErr result (flat.new ≡ flat.old) }
{
    add_pages(&mut flat.pages, more)?;
    set_reaches(&mut flat.gens, reaches);
    flat.births += n;
    Ok(())
}

/// The change of a Map: a run of pages is mapped, of zeros or of a patch of the run. They have the
/// next births, by rising number, and each generation that lives reaches them. It sorts the pages
/// of data, and copies the places that the generations reach.
///
/// # Errors
///
/// `Memory` where memory runs out; then nothing has changed.
pub fn pages_mapped(
    alloc: Global,
    flat: &mut Flat,
    deltas: &[Delta],
    run: PageRun,
    patch: Option<u32>,
) -> Result<(), Memory>
    requires ordered { IsOrdered flat.old }
    requires low { run.first + run.count ≤ ADDRESS_PAGES }
    requires few { flat.old.births + run.count < 2 ^ 64 }
    requires free { AllByRecursion (λ page. is_data flat.old page ≡ false)
        (range_with_len run.first run.count) }
    requires rising { IfSome (effects.delta_of deltas.now patch)
        (λ delta. IsRising (data_numbers delta.shared)) }
    ensures state { OnOk result
        (flat.new ≡ effects.mapped flat.old run.first run.count run.write
        (effects.delta_of deltas.now patch)) }
    ensures unchanged { OnErr result (flat.new ≡ flat.old) }
    ensures ordered { IsOrdered flat.new }
{
    let delta = delta_of(deltas, patch);
    let more = mapped_pages(alloc, delta, run.write, run.first, flat.births, run.count)?;
    let numbers = numbers_from(alloc, run.first, run.count)?;
    let mut reaches = reaches_with(alloc, &flat.gens, &numbers)?;
    add_mapped(flat, more, &mut reaches, run.count)?;
    Ok(())
}
