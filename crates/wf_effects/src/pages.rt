//! Pages of data that come and go.
ghost use Rattle.std.specs.Prelude.{◌≡◌, ◌<◌, ◌==◌, ◌+◌, ◌^◌, not, map};
ghost use Rattle.std.specs.List.{filter};
ghost use Rattle.wf_flat.specs.Lists.{changed_by};
ghost use Rattle.wf_flat.specs.Ordered.{IsOrdered, page_numbers};
ghost use Rattle.wf_outside.specs.Lists.{IsRising};
ghost use Rattle.wf_outside.specs.declared.sizes.TheConstants.{MOST_FRAMES};
ghost use Rattle.wf_effects.specs.Effects as effects;

use wf_flat::{Flat, FlatPage, Stage};

// A page, if it is one of so many from one on, is Going.
fn go(page: &mut FlatPage, first: u32, n: u64)
    requires { first + n < 2 ^ 64 }
    ensures { page.new ≡ effects.going_in first n page.old }
{
    let first = first as u64;
    let number = page.number as u64;
    if first <= number && number < first + n {
        page.stage = Stage::Going;
    }
}

// Pages, if they are some of so many from one on, are Going.
fn go_all(pages: &mut [FlatPage], first: u32, n: u64)
    requires { first + n < 2 ^ 64 }
    ensures { pages.new ≡ map (effects.going_in first n) pages.old }
{
    for i in 0..pages.len() {
        let page = &mut pages[i];
        go(page, first, n);
    }
}

// The pages of data, if they are some of so many from one on, are Going.
fn go_in(flat: &mut Flat, first: u32, n: u64)
    requires { first + n < 2 ^ 64 }
    ensures { flat.new ≡ effects.pages_going flat.old first n }
{
    go_all(&mut flat.pages, first, n);
}

/// The change of a Going: an unmap of so many pages from one on has begun. It takes one pass over
/// the pages of data.
pub fn pages_going(flat: &mut Flat, first: u32, n: u64)
    requires fits { first + n < 2 ^ 64 }
    requires ordered { IsOrdered flat.old }
    ensures state { flat.new ≡ effects.pages_going flat.old first n }
    ensures ordered { IsOrdered flat.new }
{
    go_in(flat, first, n);
}

// No generation has met the page any more.
fn forget_page(met: &mut Vec<(u32, u32)>, page: u32)
    ensures { met.new.items ≡ effects.met_but_page met.old.items page }
{
    met.retain(|pair| pair.1 != page);
}

// The page of a number, where it is there, is Ending.
fn end_in(pages: &mut [FlatPage], number: u32)
    requires { IsRising (page_numbers pages.old) }
    ensures { pages.new ≡ changed_by (λ page. page.number) pages.old number effects.ending }
{
    if let Ok(at) = pages.binary_search_by_key(&number, |page| page.number) {
        let page = &mut pages[at];
        page.stage = Stage::Ending;
    }
}

// The page of a number is Ending, and no generation has met it any more.
fn end_page(flat: &mut Flat, page: u32)
    requires { IsOrdered flat.old }
    ensures { flat.new ≡ effects.page_ending flat.old page }
{
    end_in(&mut flat.pages, page);
    forget_page(&mut flat.met, page);
}

/// The change of an Ending: the page of a number, where it is there, is Ending, and no generation
/// has met it any more. It takes one pass over what was met.
pub fn page_ending(flat: &mut Flat, page: u32)
    requires { IsOrdered flat.old }
    ensures state { flat.new ≡ effects.page_ending flat.old page }
    ensures ordered { IsOrdered flat.new }
{
    end_page(flat, page);
}

// The page of a number is there no more.
fn remove_page(pages: &mut Vec<FlatPage>, number: u32)
    ensures { pages.new.items ≡ filter (λ page. not (page.number == number)) pages.old.items }
{
    pages.retain(|page| page.number != number);
}

// The page of a number is gone.
fn drop_page(flat: &mut Flat, page: u32, worn: bool)
    requires { flat.old.worn < MOST_FRAMES }
    ensures { flat.new ≡ effects.page_gone flat.old page worn }
{
    remove_page(&mut flat.pages, page);
    forget_page(&mut flat.met, page);
    if worn {
        flat.worn += 1;
    }
}

/// The change of a Gone: the page of a number is there no more, no generation has met it, and where
/// its frame is worn, one more is. It takes one pass over the pages of data and over what was met.
pub fn page_gone(flat: &mut Flat, page: u32, worn: bool)
    requires ordered { IsOrdered flat.old }
    requires room { flat.old.worn < MOST_FRAMES }
    ensures state { flat.new ≡ effects.page_gone flat.old page worn }
    ensures ordered { IsOrdered flat.new }
{
    drop_page(flat, page, worn);
}
