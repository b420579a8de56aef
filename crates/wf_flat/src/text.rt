//! Reading text.
ghost use Rattle.std.specs.Prelude.{◌≡◌, ◌%◌, option_copied};
ghost use Rattle.std.specs.Option.{option_map};
ghost use Rattle.wf_outside.specs.declared.sizes.TheConstants.{PAGE_SIZE};
ghost use Rattle.wf_outside.specs.Images.{text_numbers};
ghost use Rattle.wf_outside.specs.Lists.{IsRising};
ghost use Rattle.wf_outside.specs.Pages.{page_of};
ghost use Rattle.wf_flat.specs.Serving.{IsWidth};
ghost use Rattle.wf_flat.specs.Memory.{word_at, page_in, number_in};
ghost use Rattle.wf_flat.specs.Steps.{generation_text};

use crate::Flat;
use crate::data::number_at;
use wf_outside::{PAGE_SIZE, Page};

// The page of a number, in pages by rising number.
fn find_page(text: &[Page], number: u64) -> Option<&Page>
    requires { IsRising (text_numbers text.now) }
    ensures { option_copied result ≡ page_in text.now number }
{
    match text.binary_search_by_key(&number, |page| page.number as u64) {
        Ok(at) => Some(&text[at]),
        Err(_) => None,
    }
}

// The four bytes at an address.
fn find_word(text: &[Page], at: u64) -> Option<u32>
    requires { IsRising (text_numbers text.now) }
    ensures { result ≡ word_at text.now at }
{
    let page = find_page(text, at / PAGE_SIZE)?;
    let place = at % PAGE_SIZE;
    let word = page.words[(place / 8) as usize];
    Some((word >> (8 * (place % 8)) & 0xFFFF_FFFF) as u32)
}

// So many bytes at an address.
fn find_number(text: &[Page], at: u64, width: u8) -> Option<u64>
    requires rising { IsRising (text_numbers text.now) }
    requires width { IsWidth width }
    ensures { result
        ≡ option_map (λ page. number_in page.words (at % PAGE_SIZE) width)
        (page_in text.now (page_of at)) }
{
    let page = find_page(text, at / PAGE_SIZE)?;
    Some(number_at(&page.words, at % PAGE_SIZE, width))
}

impl Flat {
    /// The four bytes at an address, a multiple of 4, of a generation's text; `None` where its page
    /// is no text of it. It takes time in the logarithm of the pages.
    pub fn text_word(&self, generation: u32, at: u64) -> Option<u32>
        ensures { result ≡ word_at (generation_text self.now generation) at }
    {
        let version = self.gens.get(generation as usize)?;
        find_word(&version.text, at)
    }

    /// The number of `width` bytes, 1, 2, 4 or 8, at an address, a multiple of them, of a
    /// generation's text, lowest first; `None` where its page is no text of it. It takes time in
    /// the logarithm of the pages.
    pub fn text_number(&self, generation: u32, va: u64, width: u8) -> Option<u64>
        requires { IsWidth width }
        ensures { result
            ≡ option_map (λ page. number_in page.words (va % PAGE_SIZE) width)
            (page_in (generation_text self.now generation) (page_of va)) }
    {
        let version = self.gens.get(generation as usize)?;
        find_number(&version.text, va, width)
    }
}
