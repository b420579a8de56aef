//! Pages of data: finding, taking, writing and giving them back; and the pages that generations
//! have met.
ghost use Rattle.std.specs.Prelude.{◌≡◌, ◌<◌, ◌≤◌, ◌*◌, ◌/◌, ◌%◌, ◌^◌, true, false, IfOk, OnOk, MatchOption, MatchResult, length, map, slice_get, option_copied};
ghost use Rattle.std.specs.List.{insert};
ghost use Rattle.wf_outside.specs.declared.sizes.TheConstants.{PAGE_SIZE};
ghost use Rattle.wf_outside.specs.Lists.{IsRising};
ghost use Rattle.wf_flat.specs.Lists.{changed_by};
ghost use Rattle.wf_flat.specs.Memory as memory;
ghost use Rattle.wf_outside.specs.Pages.{page_of};
ghost use Rattle.wf_flat.specs.Serving.{IsPlace, IsWidth};
ghost use Rattle.wf_flat.specs.Memory.{data_in, met_key, with_met, number_in};
ghost use Rattle.wf_flat.specs.Ordered.{IsOrdered, page_numbers};
ghost use Rattle.wf_flat.specs.Changes.{change_page, taken_by, put_with, given_back};

use crate::{Flat, FlatPage};
use wf_outside::{ADDRESS_PAGES, Memory, PAGE_SIZE};

// The place of the page of a number, in pages by rising number.
fn place_of(pages: &[FlatPage], number: u64) -> Option<usize>
    requires { IsRising (page_numbers pages.now) }
    ensures { MatchOption result (data_in pages.now number ≡ None)
        (λ at. (at < length pages.now) × (data_in pages.now number ≡ slice_get pages.now at)) }
{
    pages
        .binary_search_by_key(&number, |page| page.number as u64)
        .ok()
}

// The place of what a generation met in the table, or else the place where it would stand.
fn met_at(met: &[(u32, u32)], generation: u32, page: u32) -> Result<usize, usize>
    requires { IsRising (map met_key met.now) }
    ensures { MatchResult result (λ at. memory.has_met met.now generation page ≡ true)
        (λ at. (memory.has_met met.now generation page ≡ false) × (at ≤ length met.now)
        × (with_met met.now generation page ≡ insert met.now at (generation, page))) }
{
    met.binary_search_by_key(&key_of(generation, page), |pair| key_of(pair.0, pair.1))
}

// One more page that a generation met, and has not met before.
fn add_met(met: &mut Vec<(u32, u32)>, generation: u32, page: u32) -> Result<(), Memory>
    requires rising { IsRising (map met_key met.old.items) }
    requires unmet { memory.has_met met.old.items generation page ≡ false }
    ensures met { OnOk result (met.new.items ≡ with_met met.old.items generation page) }
    ensures rising { IsRising (map met_key met.new.items) }
{
    match met_at(met, generation, page) {
        Ok(_) => Ok(()),
        Err(at) => {
            met.insert(at, (generation, page))?;
            Ok(())
        }
    }
}

impl Flat {
    /// The page of data of a number, an address divided by 4,096; `None` where there is none. It
    /// takes time in the logarithm of the pages.
    pub fn data_page(&self, number: u64) -> Option<&FlatPage>
        requires { IsOrdered self.now }
        ensures { option_copied result ≡ data_in self.now.pages number }
    {
        let at = place_of(&self.pages, number)?;
        Some(&self.pages[at])
    }

    /// Whether a generation has met a page. It takes time in the logarithm of what was met.
    pub fn has_met(&self, generation: u32, page: u32) -> bool
        requires { IsOrdered self.now }
        ensures { result ≡ memory.has_met self.now.met generation page }
    {
        met_at(&self.met, generation, page).is_ok()
    }

    /// What the generations have met, with one more page that this one has not met. It takes
    /// memory, and time in what was met.
    pub fn met_with(&self, generation: u32, page: u32) -> Result<Vec<(u32, u32)>, Memory>
        requires ordered { IsOrdered self.now }
        requires unmet { memory.has_met self.now.met generation page ≡ false }
        ensures met { IfOk result (λ met. met.items ≡ with_met self.now.met generation page) }
        ensures rising { IfOk result (λ met. IsRising (map met_key met.items)) }
    {
        let mut met = self.met.clone()?;
        add_met(&mut met, generation, page)?;
        Ok(met)
    }
}

// Where a page that a generation met stands in the table.
fn key_of(generation: u32, page: u32) -> u64
    ensures { result ≡ met_key (generation, page) }
{
    u64::from(generation) * u64::from(ADDRESS_PAGES) + u64::from(page)
}

// The number of `width` bytes of a page, 1, 2, 4 or 8, from a place on, lowest first.
pub(crate) fn number_at(words: &[u64], at: u64, width: u8) -> u64
    requires there { at / 8 < length words.now }
    requires width { IsWidth width }
    ensures { result ≡ number_in words.now at width }
{
    let low = words[(at / 8) as usize] >> (8 * (at % 8));
    match width {
        1 => low % (1 << 8),
        2 => low % (1 << 16),
        4 => low % (1 << 32),
        _ => low,
    }
}

// How many numbers so many bytes have.
fn span_of(bytes: u64) -> u64
    requires { bytes < 8 }
    ensures { result ≡ 2 ^ (8 * bytes) }
{
    1 << (8 * bytes)
}

// A word in which `width` bytes, 1, 2, 4 or 8, from a place on, a multiple of them, are the low
// ones of a number.
fn word_with(word: u64, at: u64, width: u8, value: u64) -> u64
    requires within { at < 8 }
    requires place { IsPlace at width }
    ensures { result ≡ memory.word_with word at width value }
{
    if width == 8 {
        return value;
    }
    let low = span_of(at);
    let span = span_of(width as u64);
    (word / low / span * span + value % span) * low + word % low
}

impl FlatPage {
    /// The number of `width` bytes, 1, 2, 4 or 8, from a place of the page on, lowest first.
    pub fn number_at(&self, at: u64, width: u8) -> u64
        requires within { at < PAGE_SIZE }
        requires width { IsWidth width }
        ensures { result ≡ number_in self.now.words at width }
    {
        number_at(&self.words, at, width)
    }

    // A hart takes it.
    fn take(&mut self, hart: u8)
        ensures { self.new ≡ taken_by hart self.old }
    {
        self.holder = Some(hart);
    }

    // `width` bytes at a place are written.
    fn put(&mut self, at: u64, width: u8, value: u64)
        requires within { at < PAGE_SIZE }
        requires place { IsPlace at width }
        ensures { self.new ≡ put_with at width value self.old }
    {
        let word = self.words[(at / 8) as usize];
        self.words[(at / 8) as usize] = word_with(word, at % 8, width, value);
    }

    // Its hart gives it back, and has written it or not.
    fn give_back(&mut self, last_writes: u64, put: bool)
        ensures { self.new ≡ given_back last_writes put self.old }
    {
        self.holder = None;
        if put && self.writes < last_writes {
            self.writes += 1;
        }
    }
}

// A hart takes the page of a number, where it is there.
fn take_in(pages: &mut [FlatPage], number: u64, hart: u8)
    requires { IsRising (page_numbers pages.old) }
    ensures { pages.new ≡ changed_by (λ page. page.number) pages.old number (taken_by hart) }
{
    if let Some(at) = place_of(pages, number) {
        let page = &mut pages[at];
        page.take(hart);
    }
}

// Bytes of the page of a number are written, where it is there.
fn put_in(pages: &mut [FlatPage], va: u64, width: u8, value: u64)
    requires rising { IsRising (page_numbers pages.old) }
    requires place { IsPlace va width }
    ensures { pages.new
        ≡ changed_by (λ page. page.number) pages.old (page_of va)
        (put_with (va % PAGE_SIZE) width value) }
{
    if let Some(at) = place_of(pages, va / PAGE_SIZE) {
        let page = &mut pages[at];
        page.put(va % PAGE_SIZE, width, value);
    }
}

// The page of a number is given back, where it is there.
fn give_in(pages: &mut [FlatPage], number: u64, last_writes: u64, put: bool)
    requires { IsRising (page_numbers pages.old) }
    ensures { pages.new
        ≡ changed_by (λ page. page.number) pages.old number (given_back last_writes put) }
{
    if let Some(at) = place_of(pages, number) {
        let page = &mut pages[at];
        page.give_back(last_writes, put);
    }
}

impl Flat {
    /// A hart takes the page of a number, where it is there. It takes time in the logarithm of the
    /// pages.
    pub fn take_page(&mut self, number: u64, hart: u8)
        requires { IsOrdered self.old }
        ensures { self.new ≡ change_page self.old number (taken_by hart) }
    {
        take_in(&mut self.pages, number, hart);
    }

    /// The low `width` bytes of a value, 1, 2, 4 or 8, are written at an address, where its page is
    /// there. It takes time in the logarithm of the pages.
    pub fn put_page(&mut self, va: u64, width: u8, value: u64)
        requires ordered { IsOrdered self.old }
        requires place { IsPlace va width }
        ensures { self.new
            ≡ change_page self.old (page_of va) (put_with (va % PAGE_SIZE) width value) }
    {
        put_in(&mut self.pages, va, width, value);
    }

    // The last count of writes.
    fn last_writes(&self) -> u64
        ensures { result ≡ self.now.limits.last_writes }
    {
        let limits = &self.limits;
        limits.last_writes
    }

    /// The page of a number is given back, where it is there; `put` is whether its hart wrote in
    /// it. It takes time in the logarithm of the pages.
    pub fn give_page(&mut self, number: u64, put: bool)
        requires { IsOrdered self.old }
        ensures { self.new
            ≡ change_page self.old number (given_back self.old.limits.last_writes put) }
    {
        let last_writes = self.last_writes();
        give_in(&mut self.pages, number, last_writes, put);
    }

    /// What the generations have met is now this.
    pub fn set_met(&mut self, met: Vec<(u32, u32)>)
        ensures { self.new ≡ record self.old { met = met.items } }
    {
        self.met = met;
    }
}
