//! The pages of a patch.
ghost use Rattle.std.specs.Prelude.{◌≡◌, ◌<◌, ◌≤◌, ◌+◌, ◌*◌, ◌^◌, ◌++◌, [], length, map, IfOk, OnOk, vec_len};
ghost use Rattle.std.specs.List.{range_with_len};
ghost use Rattle.wf_outside.specs.declared.sizes.TheConstants.{PAGE_SIZE, PAGE_WORDS, DATA_END_PAGE};
ghost use Rattle.patch_build.specs.Layout.{all_pages, end_with, region_end, pages_of, AreStarts};
ghost use Rattle.patch_build.specs.Links.{AreSized};
ghost use Rattle.patch_build.specs.Pages.{padded, bytes_with, bytes_behind, bytes_of, words_of, page_of_text, page_of_data, text_pages, data_pages, delta_with};
ghost use Rattle.patch_build.specs.declared.constants.TheConstants.{MOST_PATCH_PAGES};

use crate::layout::Starts;
use crate::linking::Linked;
use crate::region::{Region, alignment_of};
use elf_load::words_of as words_in;
use elf_read::Section;
use std::alloc::Global;
use wf_outside::{DataPage, Delta, Jump, Memory, PAGE_SIZE, Page};

// Zeros come behind the bytes, up to so many.
fn pad(bytes: &mut Vec<u8>, n: usize) -> Result<(), Memory>
    requires { vec_len bytes.old ≤ n }
    ensures { OnOk result (bytes.new.items ≡ padded n bytes.old.items) }
{
    bytes.resize(n, 0)?;
    Ok(())
}

// The bytes of one section more, from its offset on, if it is of the region.
fn put(
    bytes: &mut Vec<u8>,
    region: Region,
    section: &Section,
    relocated: &Linked,
) -> Result<(), Memory>
    requires { end_with region (vec_len bytes.old) section.now < 2 ^ 32 }
    ensures { OnOk result
        (bytes.new.items ≡ bytes_with region bytes.old.items section.now relocated.now) }
{
    if region.has(section) {
        let start = bytes.len().next_multiple_of(alignment_of(section) as usize);
        pad(bytes, start)?;
        bytes.extend_from_slice(&relocated.bytes)?;
    }
    Ok(())
}

// The bytes of a region's sections, each from its offset on.
fn bytes_behind(
    alloc: Global,
    region: Region,
    sections: &[Section],
    linked: &[Linked],
) -> Result<Vec<u8>, Memory>
    requires few { all_pages sections.now ≤ MOST_PATCH_PAGES }
    requires sized { AreSized sections.now linked.now }
    ensures bytes { IfOk result
        (λ bytes. bytes.items ≡ bytes_behind region [] sections.now linked.now) }
    ensures len { IfOk result (λ bytes. vec_len bytes ≤ region_end region sections.now) }
{
    let mut bytes = Vec::new(alloc);
    for (number, section) in sections.iter().enumerate() {
        let relocated = &linked[number];
        put(&mut bytes, region, section, relocated)?;
    }
    Ok(bytes)
}

// The bytes of all pages of a region.
fn bytes_of(
    alloc: Global,
    region: Region,
    sections: &[Section],
    linked: &[Linked],
    count: u32,
) -> Result<Vec<u8>, Memory>
    requires few { all_pages sections.now ≤ MOST_PATCH_PAGES }
    requires sized { AreSized sections.now linked.now }
    requires count { count ≡ pages_of region sections.now }
    ensures bytes { IfOk result
        (λ bytes. bytes.items ≡ bytes_of region sections.now linked.now) }
    ensures len { IfOk result (λ bytes. vec_len bytes ≡ PAGE_SIZE * count) }
{
    let mut bytes = bytes_behind(alloc, region, sections, linked)?;
    pad(&mut bytes, PAGE_SIZE as usize * count as usize)?;
    Ok(bytes)
}

// The words of page k in these bytes.
fn words_of(alloc: Global, bytes: &[u8], k: u32) -> Result<Vec<u64>, Memory>
    requires { PAGE_SIZE * k + PAGE_SIZE ≤ length bytes.now }
    ensures words { IfOk result (λ words. words.items ≡ words_of bytes.now k) }
    ensures len { IfOk result (λ words. length words.items ≡ PAGE_WORDS) }
{
    let start = PAGE_SIZE as usize * k as usize;
    words_in(alloc, &bytes[start..start + PAGE_SIZE as usize])
}

// Pages of text in these bytes, so many, from this page on.
fn text_pages(alloc: Global, bytes: &[u8], first: u32, count: u32) -> Result<Vec<Page>, Memory>
    requires whole { length bytes.now ≡ PAGE_SIZE * count }
    requires low { first + count ≤ DATA_END_PAGE }
    ensures { IfOk result
        (λ pages. pages.items ≡ map (page_of_text bytes.now first) (range_with_len 0 count)) }
{
    let mut pages = Vec::new(alloc);
    for k in 0..count {
        let words = words_of(alloc, bytes, k)?;
        pages.push(Page {
            number: first + k,
            words,
        })?;
    }
    Ok(pages)
}

// Pages of data in these bytes, so many, from this page on, come behind others.
fn push_data(
    alloc: Global,
    pages: &mut Vec<DataPage>,
    bytes: &[u8],
    first: u32,
    count: u32,
    write: bool,
) -> Result<(), Memory>
    requires whole { length bytes.now ≡ PAGE_SIZE * count }
    requires low { first + count ≤ DATA_END_PAGE }
    ensures { OnOk result (pages.new.items ≡ pages.old.items
        ++ map (page_of_data bytes.now first write) (range_with_len 0 count)) }
{
    for k in 0..count {
        let words = words_of(alloc, bytes, k)?;
        pages.push(DataPage {
            number: first + k,
            write,
            words,
        })?;
    }
    Ok(())
}

/// What a patch brings whose sections were relocated: its text, its data and its jumps.
pub fn delta_with(
    alloc: Global,
    starts: Starts,
    sections: &[Section],
    linked: &[Linked],
    jumps: Vec<Jump>,
) -> Result<Delta, Memory>
    requires few { all_pages sections.now ≤ MOST_PATCH_PAGES }
    requires sized { AreSized sections.now linked.now }
    requires starts { AreStarts starts sections.now }
    ensures { IfOk result
        (λ delta. delta ≡ delta_with starts sections.now linked.now jumps.items) }
{
    let count = starts.constants - starts.text;
    let text = bytes_of(alloc, Region::Text, sections, linked, count)?;
    let private = text_pages(alloc, &text, starts.text, count)?;
    let mut shared = Vec::new(alloc);
    let count = starts.variables - starts.constants;
    let constants = bytes_of(alloc, Region::Constants, sections, linked, count)?;
    push_data(
        alloc,
        &mut shared,
        &constants,
        starts.constants,
        count,
        false,
    )?;
    let count = starts.end - starts.variables;
    let variables = bytes_of(alloc, Region::Data, sections, linked, count)?;
    push_data(
        alloc,
        &mut shared,
        &variables,
        starts.variables,
        count,
        true,
    )?;
    Ok(Delta {
        private,
        shared,
        jumps,
    })
}
