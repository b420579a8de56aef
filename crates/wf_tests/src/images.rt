//! An image of one page of text.
ghost use Rattle.std.specs.Prelude.{◌≡◌, ◌≤◌, IfOk, length};
ghost use Rattle.wf_outside.specs.declared.sizes.TheConstants.{PAGE_WORDS};

use std::alloc::Global;
use wf_outside::{Image, Memory, PAGE_WORDS, Page};

/// The words of a page: these, and zeros behind them.
pub fn page_words(alloc: Global, words: &[u64]) -> Result<Vec<u64>, Memory>
    requires { length words.now ≤ PAGE_WORDS }
    ensures { IfOk result (λ all. length all.items ≡ PAGE_WORDS) }
{
    let mut all = vec![in alloc; 0; PAGE_WORDS]?;
    let some = words.len();
    all[..some].copy_from_slice(words);
    Ok(all)
}

/// One page of text at 0x10000, with these words of 64 bits and zeros behind them.
pub fn small_image(alloc: Global, words: &[u64]) -> Result<Image, Memory>
    requires { length words.now ≤ PAGE_WORDS }
{
    let mut text = Vec::new(alloc);
    text.push(Page {
        number: 0x10,
        words: page_words(alloc, words)?,
    })?;
    Ok(Image {
        text,
        pages: Vec::new(alloc),
        entry: 0x1_0000,
        names: Vec::new(alloc),
        end: 0x11,
    })
}
