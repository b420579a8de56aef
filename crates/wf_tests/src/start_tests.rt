//! Starts that were found by hand.
ghost use Rattle.std.specs.Prelude.{◌≡◌, ◌<◌, ◌^◌, IfOk, ◌≤◌, length};

use crate::images::small_image;
use rv_inst::Arch;
use std::alloc::Global;
use std::test::Fail;
use wf_flat::{BootFault, Flat, boot};
use wf_outside::{DataPage, Image, Limits, Memory, Page};

// 512 words: the first, the last, and zeros between.
fn words(alloc: Global, first: u64, last: u64) -> Result<Vec<u64>, Memory>
    ensures { IfOk result (λ words. length words.items ≡ 512) }
{
    let mut words = vec![in alloc; 0; 512]?;
    words[0] = first;
    words[511] = last;
    Ok(words)
}

fn new_text_page(alloc: Global, number: u32) -> Result<Page, Memory>
    requires { number < 2 ^ 26 }
    ensures { IfOk result (λ page. page.number ≡ number) }
{
    Ok(Page {
        number,
        words: words(alloc, 0x0000_0073_0070_0513, 0x1234_5678_9ABC_DEF0)?,
    })
}

fn new_data_page(alloc: Global, number: u32, write: bool) -> Result<DataPage, Memory>
    requires { number < 2 ^ 26 }
    ensures { IfOk result (λ page. page.number ≡ number) }
{
    Ok(DataPage {
        number,
        write,
        words: words(alloc, 1, 2)?,
    })
}

// Two pages of text and two of data, neither by rising number.
fn unsorted_image(alloc: Global) -> Result<Image, Memory> {
    let mut text = Vec::new(alloc);
    text.push(new_text_page(alloc, 0x12)?)?;
    text.push(new_text_page(alloc, 0x10)?)?;
    let mut pages = Vec::new(alloc);
    pages.push(new_data_page(alloc, 0x20, false)?)?;
    pages.push(new_data_page(alloc, 0x11, true)?)?;
    Ok(Image {
        text,
        pages,
        entry: 0x1_2000,
        names: Vec::new(alloc),
        end: 0x21,
    })
}

fn limits(frames: u32) -> Limits
    requires some { 64 ≤ frames }
    requires few { frames ≤ 65536 }
{
    Limits {
        frames,
        last_writes: 1,
        last_birth: 1,
    }
}

// The number, the right and the mapping of each data page.
fn mapped(alloc: Global, flat: &Flat) -> Result<Vec<(u32, bool, u64)>, Memory> {
    let mut mapped = Vec::new(alloc);
    for page in &flat.pages {
        mapped.push((page.number, page.write, page.birth))?;
    }
    Ok(mapped)
}

#[test]
fn one_hart_begins(rt: HostRuntime) -> Result<(), Fail> {
    let alloc = rt.alloc();
    let flat = boot(alloc, &small_image(alloc, &[])?, 1, limits(1024))?;
    assert_eq!(rt;
        mapped(alloc, &flat)?.as_slice(),
        [
            (0x3E0_000C, true, 0),
            (0x3E0_000D, true, 1),
            (0x3E0_000E, true, 2),
            (0x3E0_000F, true, 3),
        ]
        .as_slice()
    );
    assert_eq!(rt; flat.births, 4);
    assert_eq!(rt; flat.gens.len(), 1);
    let version = &flat.gens[0];
    assert_eq!(rt; version.reach.as_slice(), [0, 0x1_F000].as_slice());
    assert_eq!(rt; (version.number, version.live), (0, true));
    assert_eq!(rt; flat.harts.len(), 1);
    let mut x = [0; 32];
    x[2] = 0x3E_0001_0000;
    assert_eq!(rt; flat.harts[0].arch, Arch { pc: 0x1_0000, x });
    Ok(())
}

#[test]
fn every_node_takes_a_frame(rt: HostRuntime) -> Result<(), Fail> {
    let alloc = rt.alloc();
    let image = small_image(alloc, &[])?;
    // A page of text, 64 stacks of 4 pages, the root, 2 upper nodes and 3 lower ones.
    let fault = BootFault::NoFrames {
        need: 263,
        have: 64,
    };
    assert_eq!(rt; boot(alloc, &image, 64, limits(64)).err(), Some(fault));
    let flat = boot(alloc, &image, 64, limits(263))?;
    assert_eq!(rt; flat.pages.len(), 256);
    let mut x = [0; 32];
    x[2] = 0x3E_0040_0000;
    x[10] = 63;
    assert_eq!(rt; flat.harts.len(), 64);
    assert_eq!(rt; flat.harts[63].arch, Arch { pc: 0x1_0000, x });
    Ok(())
}

#[test]
fn pages_are_sorted_and_text_is_read(rt: HostRuntime) -> Result<(), Fail> {
    let alloc = rt.alloc();
    let flat = boot(alloc, &unsorted_image(alloc)?, 1, limits(1024))?;
    assert_eq!(rt;
        mapped(alloc, &flat)?.as_slice(),
        [
            (0x11, true, 0),
            (0x20, false, 1),
            (0x3E0_000C, true, 2),
            (0x3E0_000D, true, 3),
            (0x3E0_000E, true, 4),
            (0x3E0_000F, true, 5),
        ]
        .as_slice()
    );
    let mut numbers = Vec::new(alloc);
    assert_eq!(rt; flat.gens.len(), 1);
    for page in &flat.gens[0].text {
        numbers.push(page.number)?;
    }
    assert_eq!(rt; numbers.as_slice(), [0x10, 0x12].as_slice());
    for (generation, at, word) in [
        (0, 0x1_0000, Some(0x0070_0513)),
        (0, 0x1_0004, Some(0x0000_0073)),
        (0, 0x1_2FF8, Some(0x9ABC_DEF0)),
        (0, 0x1_2FFC, Some(0x1234_5678)),
        // data, nothing, and no such generation
        (0, 0x1_1000, None),
        (0, 0x1_3000, None),
        (1, 0x1_0000, None),
    ] {
        assert_eq!(rt; flat.text_word(generation, at), word, "{generation} {at:x}");
    }
    Ok(())
}
