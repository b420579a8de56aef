//! Loading.
ghost use Rattle.std.specs.Prelude.{◌≡◌, ◌%◌, ◌==◌, ◌&&◌, true, None, OnOk, IfOk, IfErr, All, ◌<◌, length};
ghost use Rattle.wf_outside.specs.Pages.{page_of};
ghost use Rattle.wf_outside.specs.declared.sizes.TheConstants.{DATA_END_PAGE};
ghost use Rattle.elf_load.specs.Segments.{loads_of, is_text};
ghost use Rattle.elf_load.specs.Placing.{ArePlaced};
ghost use Rattle.elf_load.specs.Rules.{fault_of, IsFaultOf};
ghost use Rattle.elf_load.specs.Loaded.{page_behind, image_of};

use crate::LoadFault;
use crate::naming::names;
use crate::pages::read_pages;
use crate::paging::page_numbers;
use crate::placing::placed;
use crate::rules::{Demand, check_headers, check_size};
use crate::segments::{is_executable, meets};
use elf_read::constants::E_ENTRY_PLACE;
use elf_read::{Elf, Segment};
use std::alloc::Global;
use wf_outside::{Image, LoadRule, Memory, PAGE_SIZE};

// The page is one of text.
fn is_text(loads: &[Segment], number: u64) -> bool
    ensures { result ≡ is_text loads.now number }
{
    loads
        .iter()
        .any(|load| meets(load, number) && is_executable(load))
}

// The first instruction is one of text.
fn is_entry(elf: &Elf, loads: &[Segment]) -> bool
    ensures { result ≡ ((elf.now.entry % 4 == 0) && is_text loads.now (page_of elf.now.entry)) }
{
    let entry = elf.entry();
    entry % 4 == 0 && is_text(loads, entry / PAGE_SIZE)
}

// The first page behind all of these.
#[tactic(auto, using(crate::proofs::NumberLemmas::last_got))]
fn page_behind(numbers: &[u32]) -> u32
    requires { All (λ number. number < DATA_END_PAGE) numbers.now }
    ensures { result ≡ page_behind numbers.now }
{
    match numbers.last() {
        None => 0,
        Some(number) => number + 1,
    }
}

// What is loaded of these segments.
fn image(alloc: Global, elf: &Elf, loads: &[Segment]) -> Result<Image, Memory>
    requires placed { ArePlaced (length elf.now.bytes) (loads_of elf.now.segments) loads.now }
    requires entry { ((elf.now.entry % 4 == 0)
        && is_text loads.now (page_of elf.now.entry)) ≡ true }
    ensures { IfOk result (λ image. image ≡ image_of elf.now) }
{
    let numbers = page_numbers(alloc, loads)?;
    let contents = read_pages(alloc, elf, loads, &numbers)?;
    Ok(Image {
        text: contents.text,
        pages: contents.pages,
        entry: elf.entry(),
        names: names(alloc, elf)?,
        end: page_behind(&numbers),
    })
}

/// The image of a file, or the first rule that it breaks. A page that an executable PT_LOAD meets
/// is text; any other that is met is data, writable where a PT_LOAD on it is. Bytes that no file
/// part gives are 0. Pages stand by rising number, names in the order of the symbol table.
///
/// The time is that of the file and of the pages that it maps, times a logarithm; the memory is
/// that of the image and of the headers. A file whose symbols share a long name has it copied for
/// each.
#[tactic(auto, unfolding(crate::specs::Rules::fault_of))]
pub fn load(alloc: Global, elf: &Elf) -> Result<Image, LoadFault>
    // The file is loaded exactly where it breaks no rule, and there is memory.
    ensures passed { OnOk result (fault_of elf.now ≡ None) }
    ensures image { IfOk result (λ image. image ≡ image_of elf.now) }
    ensures fault { IfErr result (λ fault. IsFaultOf elf.now fault) }
{
    check_headers(elf, Demand::Linked)?;
    check_headers(elf, Demand::Rights)?;
    check_headers(elf, Demand::Low)?;
    check_size(elf)?;
    let loads = placed(alloc, elf)?;
    if !is_entry(elf, &loads) {
        return Err(LoadFault::Rule {
            rule: LoadRule::NoEntry,
            at: E_ENTRY_PLACE as u64,
        });
    }
    Ok(image(alloc, elf, &loads)?)
}
