//! The bytes and words of a page.
ghost use Rattle.std.specs.Prelude.{◌≡◌, ◌<◌, ◌+◌, ◌*◌, ℕ, true, if◌then◌else◌, length, slice_index, IfOk};
ghost use Rattle.std.specs.List.{AllByRecursion};
ghost use Rattle.elf_load.specs.Segments.{segment_end};
ghost use Rattle.elf_load.specs.Placing.{AreInOrder, is_placeable};
ghost use Rattle.elf_load.specs.Loaded.{covers, given, bytes_at, page_words, words_in};

use byteorder::{ByteOrder, LittleEndian};
use elf_read::{Elf, Segment, Span};
use std::alloc::Global;
use wf_outside::{Memory, PAGE_SIZE, PAGE_WORDS};

// The bytes of the file that the segment gives to a page are put there.
fn copy_part(page: &mut [u8], elf: &Elf, segment: &Segment, number: u32)
    requires whole { length page.old ≡ PAGE_SIZE }
    requires placeable { is_placeable (length elf.now.bytes) segment.now ≡ true }
    ensures { (k : ℕ) → k < PAGE_SIZE
        → slice_index page.new k ≡ (if covers segment.now (PAGE_SIZE * number + k)
        then given elf.now.bytes segment.now (PAGE_SIZE * number + k)
        else slice_index page.old k) }
{
    let start = PAGE_SIZE * number as u64;
    let from = segment.p_vaddr.max(start);
    let to = (segment.p_vaddr + segment.p_filesz).min(start + PAGE_SIZE);
    if from < to {
        let part = elf.bytes(Span {
            at: segment.p_offset,
            len: segment.p_filesz,
        });
        let given = &part[(from - segment.p_vaddr) as usize..(to - segment.p_vaddr) as usize];
        page[(from - start) as usize..(to - start) as usize].copy_from_slice(given);
    }
}

// The bytes of a page are put where it was empty.
fn fill(page: &mut [u8], elf: &Elf, loads: &[Segment], number: u32)
    requires whole { length page.old ≡ PAGE_SIZE }
    requires empty { (k : ℕ) → k < PAGE_SIZE → slice_index page.old k ≡ 0 }
    requires rising { AreInOrder loads.now }
    requires each { AllByRecursion (λ s. is_placeable (length elf.now.bytes) s ≡ true) loads.now }
    ensures { page.new ≡ bytes_at elf.now.bytes loads.now (PAGE_SIZE * number) PAGE_SIZE }
{
    for load in loads {
        copy_part(page, elf, load, number);
    }
}

// So many bytes that are 0.
fn zeros(alloc: Global, n: usize) -> Result<Vec<u8>, Memory>
    ensures len { IfOk result (λ bytes. length bytes.items ≡ n) }
    ensures each { IfOk result (λ bytes. (k : ℕ) → k < n → slice_index bytes.items k ≡ 0) }
{
    Ok(vec![in alloc; 0; n]?)
}

// The bytes of a page.
fn page_bytes(alloc: Global, elf: &Elf, loads: &[Segment], number: u32) -> Result<Vec<u8>, Memory>
    requires rising { AreInOrder loads.now }
    requires each { AllByRecursion (λ s. is_placeable (length elf.now.bytes) s ≡ true) loads.now }
    ensures bytes { IfOk result (λ bytes. bytes.items
        ≡ bytes_at elf.now.bytes loads.now (PAGE_SIZE * number) PAGE_SIZE) }
    ensures len { IfOk result (λ bytes. length bytes.items ≡ PAGE_SIZE) }
{
    let mut bytes = zeros(alloc, PAGE_SIZE as usize)?;
    fill(&mut bytes, elf, loads, number);
    Ok(bytes)
}

// So many words that are 0.
fn no_words(alloc: Global, n: usize) -> Result<Vec<u64>, Memory>
    ensures { IfOk result (λ words. length words.items ≡ n) }
{
    Ok(vec![in alloc; 0; n]?)
}

// The words in the bytes of a page are put there.
fn fill_words(bytes: &[u8], words: &mut [u64])
    requires bytes { length bytes.now ≡ PAGE_SIZE }
    requires words { length words.old ≡ PAGE_WORDS }
    ensures { words.new ≡ words_in PAGE_WORDS bytes.now }
{
    LittleEndian::read_u64_into(bytes, words);
}

/// The words in the bytes of a page, the lowest byte of each first.
pub fn words_of(alloc: Global, bytes: &[u8]) -> Result<Vec<u64>, Memory>
    requires { length bytes.now ≡ PAGE_SIZE }
    ensures words { IfOk result (λ words. words.items ≡ words_in PAGE_WORDS bytes.now) }
    ensures len { IfOk result (λ words. length words.items ≡ PAGE_WORDS) }
{
    let mut words = no_words(alloc, PAGE_WORDS)?;
    fill_words(bytes, &mut words);
    Ok(words)
}

/// The words of a page on which these segments are.
pub fn page_words(
    alloc: Global,
    elf: &Elf,
    loads: &[Segment],
    number: u32,
) -> Result<Vec<u64>, Memory>
    requires rising { AreInOrder loads.now }
    requires each { AllByRecursion (λ s. is_placeable (length elf.now.bytes) s ≡ true) loads.now }
    ensures words { IfOk result (λ words. words.items ≡ page_words elf.now.bytes loads.now number) }
    ensures len { IfOk result (λ words. length words.items ≡ PAGE_WORDS) }
{
    words_of(alloc, &page_bytes(alloc, elf, loads, number)?)
}
