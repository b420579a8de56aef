//! What a patch makes of a text.
ghost use Rattle.std.specs.Prelude.{◌≡◌, ◌<◌, ◌++◌, ◌%◌, ◌/◌, IfOk, OnOk, length, map, nat_eq, not, take, drop};
ghost use Rattle.std.specs.List.{AllByRecursion, IsDistinct, filter, fold};
ghost use Rattle.std.specs.Int.{w32, from_le_bytes};
ghost use Rattle.wf_outside.specs.declared.sizes.TheConstants.{PAGE_SIZE};
ghost use Rattle.wf_outside.specs.Images.{text_numbers};
ghost use Rattle.wf_outside.specs.Lists.{IsRising};
ghost use Rattle.wf_flat.specs.Memory as memory;
ghost use Rattle.wf_effects.specs.Texts.{IsPlaced, IsSpliceable, page_with, text_with, with_jump};
ghost use Rattle.wf_effects.specs.Texts as texts;

use std::alloc::Global;
use wf_outside::{Delta, Jump, Memory, PAGE_SIZE, Page};

// The same page.
fn copy_of(alloc: Global, page: &Page) -> Result<Page, Memory>
    ensures { IfOk result (λ copy. copy ≡ page.now) }
{
    Ok(Page {
        number: page.number,
        words: page.words.to_vec(alloc)?,
    })
}

// The same pages come behind those that are there.
fn push_copies(alloc: Global, text: &mut Vec<Page>, pages: &[Page]) -> Result<(), Memory>
    ensures { OnOk result (text.new.items ≡ text.old.items ++ pages.now) }
{
    for page in pages {
        text.push(copy_of(alloc, page)?)?;
    }
    Ok(())
}

// A text with more pages, by rising number.
fn with_pages(alloc: Global, text: &[Page], pages: &[Page]) -> Result<Vec<Page>, Memory>
    requires { IsDistinct nat_eq (text_numbers (text.now ++ pages.now)) }
    ensures sorted { IfOk result (λ copies. copies.items ≡ texts.with_pages text.now pages.now) }
    ensures rising { IfOk result (λ copies. IsRising (text_numbers copies.items)) }
{
    let mut copies = Vec::new(alloc);
    push_copies(alloc, &mut copies, text)?;
    push_copies(alloc, &mut copies, pages)?;
    copies.sort_by_key(|page| page.number)?;
    Ok(copies)
}

// A word of which the low or the high half is that of a number.
fn word_with(word: u64, at: u64, value: u32) -> u64
    requires within { at < 8 }
    requires even { at % 4 ≡ 0 }
    ensures { result ≡ memory.word_with word at 4 value }
{
    let value = value as u64;
    if at == 0 {
        word / 0x1_0000_0000 * 0x1_0000_0000 + value
    } else {
        value * 0x1_0000_0000 + word % 0x1_0000_0000
    }
}

// Four bytes at a place of a page are those of a number.
fn put_half(page: &mut Page, at: u64, value: u32)
    requires within { at < PAGE_SIZE }
    requires even { at % 4 ≡ 0 }
    ensures { page.new ≡ page_with at value page.old }
{
    let word = page.words[(at / 8) as usize];
    page.words[(at / 8) as usize] = word_with(word, at % 8, value);
}

// Four bytes at an address, where its page is there, are those of a number.
fn put_word(text: &mut [Page], at: u64, value: u32)
    requires rising { IsRising (text_numbers text.old) }
    requires even { at % 4 ≡ 0 }
    ensures { text.new ≡ text_with text.old at value }
{
    let number = at / PAGE_SIZE;
    if let Ok(place) = text.binary_search_by_key(&number, |page| page.number as u64) {
        let page = &mut text[place];
        put_half(page, at % PAGE_SIZE, value);
    }
}

// The number of the first four bytes of a jump.
fn first_half(jump: &Jump) -> u32
    ensures { result ≡ from_le_bytes w32 (take 4 jump.now.bytes) }
{
    let b = jump.bytes;
    u32::from_le_bytes([b[0], b[1], b[2], b[3]])
}

// The number of the last four bytes of a jump.
fn last_half(jump: &Jump) -> u32
    ensures { result ≡ from_le_bytes w32 (drop 4 jump.now.bytes) }
{
    let b = jump.bytes;
    u32::from_le_bytes([b[4], b[5], b[6], b[7]])
}

// The eight bytes of a jump stand at its address.
fn put_jump(text: &mut [Page], jump: &Jump)
    requires rising { IsRising (text_numbers text.old) }
    requires placed { IsPlaced jump.now }
    ensures text { text.new ≡ with_jump text.old jump.now }
    ensures numbers { text_numbers text.new ≡ text_numbers text.old }
{
    put_word(text, jump.at, first_half(jump));
    put_word(text, jump.at + 4, last_half(jump));
}

// The bytes of the jumps stand at their addresses.
fn put_jumps(text: &mut [Page], jumps: &[Jump])
    requires rising { IsRising (text_numbers text.old) }
    requires placed { AllByRecursion IsPlaced jumps.now }
    ensures text { text.new ≡ fold with_jump text.old jumps.now }
    ensures numbers { text_numbers text.new ≡ text_numbers text.old }
{
    for jump in jumps {
        put_jump(text, jump);
    }
}

// A text spliced with a patch.
pub fn spliced(alloc: Global, text: &[Page], delta: &Delta) -> Result<Vec<Page>, Memory>
    requires { IsSpliceable text.now delta.now }
    ensures text { IfOk result (λ new. new.items ≡ texts.spliced text.now delta.now) }
    ensures rising { IfOk result (λ new. IsRising (text_numbers new.items)) }
{
    let mut new = with_pages(alloc, text, &delta.private)?;
    put_jumps(&mut new, &delta.jumps);
    Ok(new)
}

// The same text.
pub fn copied(alloc: Global, text: &[Page]) -> Result<Vec<Page>, Memory>
    ensures { IfOk result (λ copies. copies.items ≡ text.now) }
{
    let mut copies = Vec::new(alloc);
    push_copies(alloc, &mut copies, text)?;
    Ok(copies)
}

// Whether one of the jumps stands at the address.
fn is_jump_at(jumps: &[Jump], at: u64) -> bool
    ensures { result ≡ texts.is_jump_at jumps.now at }
{
    jumps.iter().any(|jump| jump.at == at)
}

// Of jumps those at other addresses than others.
fn keep_others(old: &mut Vec<Jump>, new: &[Jump])
    ensures { old.new.items
        ≡ filter (λ jump. not (texts.is_jump_at new.now jump.at)) old.old.items }
{
    old.retain(|jump| !is_jump_at(new, jump.at));
}

// The jumps of a text that was spliced.
pub fn spliced_jumps(alloc: Global, old: &[Jump], new: &[Jump]) -> Result<Vec<Jump>, Memory>
    ensures { IfOk result (λ jumps. jumps.items ≡ texts.spliced_jumps old.now new.now) }
{
    let mut jumps = old.to_vec(alloc)?;
    keep_others(&mut jumps, new);
    jumps.extend_from_slice(new)?;
    Ok(jumps)
}
