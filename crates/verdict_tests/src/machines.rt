//! The start of a machine of two harts.
ghost use Rattle.std.specs.Prelude.{◌≡◌, ◌≤◌, ◌<◌, ◌^◌, IfOk, length};
ghost use Rattle.wf_verdict.specs.Verdict.{IsWithinLimits};

use std::alloc::Global;
use std::test::Fail;
use wf_flat::{Flat, boot};
use wf_outside::{DataPage, Image, Limits, Memory, Page};

// The words of a page of zeros.
fn zeros(alloc: Global) -> Result<Vec<u64>, Memory>
    ensures { IfOk result (λ words. length words.items ≡ 512) }
{
    let mut words = vec![in alloc; 0; 512]?;
    words[0] = 1;
    Ok(words)
}

fn new_text_page(alloc: Global, number: u32) -> Result<Page, Memory>
    requires { number < 2 ^ 26 }
    ensures { IfOk result (λ page. page.number ≡ number) }
{
    Ok(Page {
        number,
        words: zeros(alloc)?,
    })
}

fn new_data_page(alloc: Global, number: u32) -> Result<DataPage, Memory>
    requires { number < 2 ^ 26 }
    ensures { IfOk result (λ page. page.number ≡ number) }
{
    Ok(DataPage {
        number,
        write: true,
        words: zeros(alloc)?,
    })
}

// Page 10 of text and page 11 of data.
fn image(alloc: Global) -> Result<Image, Memory> {
    let mut text = Vec::new(alloc);
    text.push(new_text_page(alloc, 0x10)?)?;
    let mut pages = Vec::new(alloc);
    pages.push(new_data_page(alloc, 0x11)?)?;
    Ok(Image {
        text,
        pages,
        entry: 0x1_0000,
        names: Vec::new(alloc),
        end: 0x12,
    })
}

// The start of two harts of an image, with 64 frames.
fn start_of(alloc: Global, image: &Image) -> Result<Flat, Fail>
    ensures { IfOk result IsWithinLimits }
{
    let limits = Limits {
        frames: 64,
        last_writes: 1,
        last_birth: 1,
    };
    Ok(boot(alloc, image, 2, limits)?)
}

/// The start of two harts on page 10 of text and page 11 of data, with 64 frames.
pub fn start(alloc: Global) -> Result<Flat, Fail>
    ensures { IfOk result IsWithinLimits }
{
    start_of(alloc, &image(alloc)?)
}
