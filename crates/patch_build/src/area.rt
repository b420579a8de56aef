//! Where a patch is built.
ghost use Rattle.std.specs.Prelude.{◌≡◌, ◌<◌, ◌++◌, ◌==◌, true, IfOk, OnOk};
ghost use Rattle.std.specs.List.{list_any};
ghost use Rattle.wf_outside.specs.Images.{data_numbers, text_numbers};
ghost use Rattle.wf_outside.specs.Lists.{IsRising};
ghost use Rattle.patch_build.specs.Fits.{page_behind};
ghost use Rattle.patch_build.specs.Jumps.{addresses_of};

use crate::Built;
use std::alloc::Global;
use std::marker::Model;
use wf_outside::{DATA_END, DataPage, Image, Jump, Memory, PAGE_SIZE, Page};

/// What a patch is built over: the first page that is free, and all behind it; the pages of text,
/// by rising number, of the image and of the patches before; and the addresses of these patches'
/// jumps.
#[derive(Drop)]
pub struct Area {
    pub next: u32,
    pub text: Vec<u32>,
    pub jumps: Vec<u64>,
}

impl Model for Area {
    ghost use Rattle.patch_build.specs.Areas.{AreaValue, IsArea};

    ghost Value = { AreaValue };

    ghost view = { λ a. record {
      next = a.next;
      text = a.text.items;
      jumps = a.jumps.items;
    } };

    ghost invariant = { λ a. IsArea a.next a.text.items };
}

// The numbers of pages of text come behind others.
fn push_text(numbers: &mut Vec<u32>, pages: &[Page]) -> Result<(), Memory>
    ensures { OnOk result (numbers.new.items ≡ numbers.old.items ++ text_numbers pages.now) }
{
    for page in pages {
        numbers.push(page.number)?;
    }
    Ok(())
}

// The addresses of jumps come behind others.
fn push_jumps(addresses: &mut Vec<u64>, jumps: &[Jump]) -> Result<(), Memory>
    ensures { OnOk result (addresses.new.items ≡ addresses.old.items ++ addresses_of jumps.now) }
{
    for jump in jumps {
        addresses.push(jump.at)?;
    }
    Ok(())
}

// The first page behind all pages of text.
fn behind_text(pages: &[Page]) -> u32
    ensures { result ≡ page_behind (text_numbers pages.now) }
{
    let mut next = 0;
    for page in pages {
        next = next.max(page.number + 1);
    }
    next
}

// The first page behind all pages of data.
fn behind_data(pages: &[DataPage]) -> u32
    ensures { result ≡ page_behind (data_numbers pages.now) }
{
    let mut next = 0;
    for page in pages {
        next = next.max(page.number + 1);
    }
    next
}

// One of the numbers is this one.
fn has_number(numbers: &[u32], n: u32) -> bool
    requires { IsRising numbers.now }
    ensures { result ≡ list_any (λ m. m == n) numbers.now }
{
    match numbers.binary_search(&n) {
        Ok(_) => true,
        Err(_) => false,
    }
}

impl Area {
    ghost use Rattle.patch_build.specs.Areas.{IsArea};
    ghost use Rattle.patch_build.specs.Fits.{area_over, area_with, next_behind, FitsArea, IsSameArea};
    ghost use Rattle.patch_build.specs.Jumps.{has_page, has_jump};

    /// What the first patch of an image is built over: the pages behind the image's highest are
    /// free.
    pub fn over(alloc: Global, image: &Image) -> Result<Area, Memory>
        ensures { IfOk result (λ area. IsSameArea area (area_over image.now)) }
    {
        let next = behind_text(&image.text).max(behind_data(&image.pages));
        let mut text = Vec::new(alloc);
        push_text(&mut text, &image.text)?;
        text.sort_unstable();
        Ok(Area {
            next,
            text,
            jumps: Vec::new(alloc),
        })
    }

    /// What the next patch is built over, behind one that was built over this.
    pub fn with(self, built: &Built) -> Result<Area, Memory>
        requires fits { FitsArea self built.now.delta }
        requires next { built.now.next ≡ next_behind self.next built.now.delta }
        ensures { IfOk result (λ area. area ≡ area_with self built.now.delta) }
    {
        let mut text = self.text;
        push_text(&mut text, &built.delta.private)?;
        let mut jumps = self.jumps;
        push_jumps(&mut jumps, &built.delta.jumps)?;
        Ok(Area {
            next: built.next(),
            text,
            jumps,
        })
    }

    /// The first free page.
    pub fn next(&self) -> u32
        ensures value { result ≡ self.now.next }
        ensures kept { IsArea self.now.next self.now.text }
    {
        self.next
    }

    // The page of an address is one of text.
    fn has_page(&self, at: u64) -> bool
        ensures value { result ≡ has_page self.now.text at }
        ensures low { result ≡ true → at < DATA_END }
    {
        at < DATA_END && has_number(&self.text, (at / PAGE_SIZE) as u32)
    }

    /// A jump at an address stands in the text.
    pub fn has_jump(&self, at: u64) -> bool
        ensures value { result ≡ has_jump self.now.text at }
        ensures low { result ≡ true → at < DATA_END }
    {
        self.has_page(at) && self.has_page(at + 7)
    }
}
