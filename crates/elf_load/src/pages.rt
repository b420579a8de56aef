//! The pages of an image.
ghost use Rattle.std.specs.Prelude.{◌≡◌, ◌<◌, ◌∷◌, ◌++◌, ◌^◌, [], true, if◌then◌else◌, map, length, OnOk, IfOk};
ghost use Rattle.std.specs.List.{AllByRecursion, list_any};
ghost use Rattle.wf_outside.specs.declared.sizes.TheConstants.{ADDRESS_PAGES, DATA_END_PAGE};
ghost use Rattle.elf_load.specs.Segments.{is_executable, is_writable, is_met, is_text, is_data};
ghost use Rattle.elf_load.specs.Placing.{AreInOrder, is_placeable};
ghost use Rattle.elf_load.specs.Loaded.{pages_below, loaded_text, loaded_data};

use crate::filling::page_words;
use crate::paging::{on_page, page_numbers};
use crate::segments::{is_executable, is_writable};
use elf_read::{Elf, Segment};
use std::alloc::Global;
use wf_outside::{DataPage, Memory, Page};

/// Pages of text and of data.
#[derive(Drop)]
pub struct Contents {
    pub text: Vec<Page>,
    pub pages: Vec<DataPage>,
}

// One of the segments is executable.
fn any_executable(loads: &[Segment]) -> bool
    ensures { result ≡ list_any is_executable loads.now }
{
    loads.iter().any(|load| is_executable(load))
}

// One of the segments is writable.
fn any_writable(loads: &[Segment]) -> bool
    ensures { result ≡ list_any is_writable loads.now }
{
    loads.iter().any(|load| is_writable(load))
}

// One more page, behind those that are there.
fn add_page(
    alloc: Global,
    elf: &Elf,
    loads: &[Segment],
    number: u32,
    contents: &mut Contents,
) -> Result<(), Memory>
    requires rising { AreInOrder loads.now }
    requires each { AllByRecursion (λ s. is_placeable (length elf.now.bytes) s ≡ true) loads.now }
    requires low { number < ADDRESS_PAGES }
    ensures text { OnOk result (contents.new.text.items
        ≡ contents.old.text.items ++ (if is_text loads.now number
        then loaded_text elf.now.bytes loads.now number ∷ []
        else [])) }
    ensures pages { OnOk result (contents.new.pages.items
        ≡ contents.old.pages.items ++ (if is_text loads.now number
        then []
        else loaded_data elf.now.bytes loads.now number ∷ [])) }
{
    let here = on_page(loads, number as u64);
    let words = page_words(alloc, elf, here, number)?;
    if any_executable(here) {
        contents.text.push(Page { number, words })?;
    } else {
        contents.pages.push(DataPage {
            number,
            write: any_writable(here),
            words,
        })?;
    }
    Ok(())
}

/// The pages that the segments meet, each kind by rising number. `numbers` are the numbers of all.
pub fn read_pages(
    alloc: Global,
    elf: &Elf,
    loads: &[Segment],
    numbers: &[u32],
) -> Result<Contents, Memory>
    requires rising { AreInOrder loads.now }
    requires each { AllByRecursion (λ s. is_placeable (length elf.now.bytes) s ≡ true) loads.now }
    requires numbers { numbers.now ≡ pages_below DATA_END_PAGE (is_met loads.now) }
    ensures text { IfOk result (λ contents. contents.text.items
        ≡ map (loaded_text elf.now.bytes loads.now)
        (pages_below DATA_END_PAGE (is_text loads.now))) }
    ensures pages { IfOk result (λ contents. contents.pages.items
        ≡ map (loaded_data elf.now.bytes loads.now)
        (pages_below DATA_END_PAGE (is_data loads.now))) }
{
    let mut contents = Contents {
        text: Vec::new(alloc),
        pages: Vec::new(alloc),
    };
    for number in numbers {
        add_page(alloc, elf, loads, *number, &mut contents)?;
    }
    Ok(contents)
}
