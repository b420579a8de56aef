//! What the pages of an image and the sizes of a machine keep.
ghost use Rattle.std.specs.List.{AllByRecursion};
ghost use Rattle.wf_outside.specs.Pages.{AreLimits, IsPage};

use wf_outside::{DataPage, Limits, Page};

// A page of text is whole, and lies below 2^38.
fn text_page_is_whole(page: &Page)
    ensures { IsPage page.now.number page.now.words }
{
    let _words = &page.words;
}

// Pages of text are whole, and lie below 2^38.
pub fn text_is_whole(pages: &[Page])
    ensures { AllByRecursion (λ page. IsPage page.number page.words) pages.now }
{
    for page in pages {
        text_page_is_whole(page);
    }
}

// So is a page of data.
fn data_page_is_whole(page: &DataPage)
    ensures { IsPage page.now.number page.now.words }
{
    let _words = &page.words;
}

// And so are pages of data.
pub fn data_is_whole(pages: &[DataPage])
    ensures { AllByRecursion (λ page. IsPage page.number page.words) pages.now }
{
    for page in pages {
        data_page_is_whole(page);
    }
}

// The sizes of a machine are within theirs.
pub fn limits_are_sizes(limits: Limits)
    ensures { AreLimits limits.frames limits.last_writes limits.last_birth }
{
    let _frames = limits.frames;
}
