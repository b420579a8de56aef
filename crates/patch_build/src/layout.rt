//! Where the sections of an object are placed.
ghost use Rattle.std.specs.Prelude.{◌≡◌, ◌<◌, ◌≤◌, ◌+◌, ◌*◌, ◌^◌, true, None, Some, length, IfOk, IfErr, OnOk};
ghost use Rattle.elf_link.specs.Links.{AreLow};
ghost use Rattle.patch_build.specs.Links.{HasPlaces};
ghost use Rattle.patch_build.specs.Sections.{is_loaded, region_of};
ghost use Rattle.patch_build.specs.Layout.{offset_behind, end_with, region_end, end_in, pages_of, all_pages, area_fault, starts_of, first_page, place_at, ends_with, places_of, AreStarts, HasRoom};

use crate::BuildFault;
use crate::constants::MOST_PATCH_PAGES;
use crate::region::{Region, alignment_of, is_loaded};
use elf_read::Section;
use std::alloc::Global;
use wf_outside::{DATA_END_PAGE, Memory, PAGE_SIZE};

/// The first page of each region, and the first behind all.
#[derive(Clone, Copy)]
pub struct Starts {
    pub text: u32,
    pub constants: u32,
    pub variables: u32,
    pub end: u32,
}

// Where the sections of each region end so far, in bytes from its start.
#[derive(Clone, Copy)]
pub struct Ends {
    pub text: u64,
    pub constants: u64,
    pub variables: u64,
}

// Where the sections of a region end, in bytes from its start.
fn region_end(sections: &[Section], region: Region) -> u128
    requires { length sections.now < 2 ^ 32 }
    ensures value { result ≡ region_end region sections.now }
    ensures fits { result < 2 ^ 98 }
{
    let mut end = 0u128;
    for section in sections {
        if region.has(section) {
            let start = end.next_multiple_of(u128::from(alignment_of(section)));
            end = start + u128::from(section.sh_size);
        }
    }
    end
}

// How many pages a region takes.
fn pages_of(sections: &[Section], region: Region) -> u128
    requires { length sections.now < 2 ^ 32 }
    ensures value { result ≡ pages_of region sections.now }
    ensures fits { result < 2 ^ 98 }
{
    region_end(sections, region).div_ceil(u128::from(PAGE_SIZE))
}

/// The pages of each region, from this page on; or that they are too many.
pub fn lay_out(next: u32, sections: &[Section]) -> Result<Starts, BuildFault>
    requires { length sections.now < 2 ^ 32 }
    ensures ok { OnOk result (area_fault next sections.now ≡ None) }
    ensures starts { IfOk result (λ starts. starts ≡ starts_of next sections.now) }
    ensures few { OnOk result (all_pages sections.now ≤ MOST_PATCH_PAGES) }
    ensures fit { IfOk result (λ starts. AreStarts starts sections.now) }
    ensures fault { IfErr result (λ fault. area_fault next sections.now ≡ Some fault) }
{
    let text = pages_of(sections, Region::Text);
    let constants = pages_of(sections, Region::Constants);
    let variables = pages_of(sections, Region::Data);
    let pages = text + constants + variables;
    if u128::from(MOST_PATCH_PAGES) < pages
        || u128::from(DATA_END_PAGE) < u128::from(next) + pages
    {
        return Err(BuildFault::Area {
            pages: pages.min(u128::from(u64::MAX)) as u64,
        });
    }
    Ok(Starts {
        text: next,
        constants: next + text as u32,
        variables: next + (text + constants) as u32,
        end: next + pages as u32,
    })
}

// A section is put behind those that end here: where it begins.
fn put_behind(end: &mut u64, section: &Section) -> u64
    requires { offset_behind end.old section.now + section.now.sh_size < 2 ^ 64 }
    ensures start { result ≡ offset_behind end.old section.now }
    ensures end { end.new ≡ result + section.now.sh_size }
{
    let start = end.next_multiple_of(alignment_of(section));
    *end = start + section.sh_size;
    start
}

impl Starts {
    // The address of the first page of a region.
    fn address_of(self, region: Region) -> u64
        ensures value { result ≡ PAGE_SIZE * first_page self region }
        ensures fits { result < 2 ^ 44 }
    {
        let page = match region {
            Region::Text => self.text,
            Region::Constants => self.constants,
            Region::Data => self.variables,
        };
        PAGE_SIZE * u64::from(page)
    }
}

impl Ends {
    // A section is put behind those of its region: where it begins, from the region's start.
    fn put(&mut self, section: &Section) -> u64
        requires loaded { is_loaded section.now ≡ true }
        requires room { HasRoom self.old section.now }
        ensures start { result
            ≡ offset_behind (end_in self.old (region_of section.now)) section.now }
        ensures ends { self.new ≡ ends_with self.old section.now }
    {
        match Region::of(section) {
            Region::Text => put_behind(&mut self.text, section),
            Region::Constants => put_behind(&mut self.constants, section),
            Region::Data => put_behind(&mut self.variables, section),
        }
    }
}

// The address of a section, if it is loaded.
fn place(starts: Starts, ends: &mut Ends, section: &Section) -> Option<u64>
    requires { HasRoom ends.old section.now }
    ensures place { result ≡ place_at starts ends.old section.now }
    ensures ends { ends.new ≡ ends_with ends.old section.now }
{
    if !is_loaded(section) {
        return None;
    }
    let offset = ends.put(section);
    Some(starts.address_of(Region::of(section)) + offset)
}

/// The address of each section that is loaded, by number.
pub fn places_of(
    alloc: Global,
    starts: Starts,
    sections: &[Section],
) -> Result<Vec<Option<u64>>, Memory>
    requires few { all_pages sections.now ≤ MOST_PATCH_PAGES }
    requires fit { AreStarts starts sections.now }
    ensures places { IfOk result (λ places. places.items ≡ places_of starts sections.now) }
    ensures all { IfOk result (λ places. length places.items ≡ length sections.now) }
    ensures placed { IfOk result (λ places. HasPlaces sections.now places.items) }
    ensures low { IfOk result (λ places. AreLow places.items sections.now) }
{
    let mut ends = Ends {
        text: 0,
        constants: 0,
        variables: 0,
    };
    let mut places = Vec::new(alloc);
    for section in sections {
        places.push(place(starts, &mut ends, section))?;
    }
    Ok(places)
}
