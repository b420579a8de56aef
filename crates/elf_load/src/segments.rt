//! Segments that are loaded.
ghost use Rattle.std.specs.Prelude.{◌≡◌, ◌<◌, ◌^◌};
ghost use Rattle.elf_load.specs.Segments.{is_load, is_executable, is_writable, segment_end, first_page, page_after, meets};

use elf_read::Segment;
use elf_read::constants::{PF_W, PF_X, PT_LOAD};
use wf_outside::PAGE_SIZE;

/// The segment is loaded, and takes memory.
pub fn is_load(segment: &Segment) -> bool
    ensures { result ≡ is_load segment.now }
{
    segment.p_type == PT_LOAD && 0 < segment.p_memsz
}

/// It may be run.
pub fn is_executable(segment: &Segment) -> bool
    ensures { result ≡ is_executable segment.now }
{
    segment.p_flags & PF_X != 0
}

/// It may be written.
pub fn is_writable(segment: &Segment) -> bool
    ensures { result ≡ is_writable segment.now }
{
    segment.p_flags & PF_W != 0
}

/// The first address behind its memory.
pub fn segment_end(segment: &Segment) -> u128
    ensures value { result ≡ segment_end segment.now }
    ensures fits { result < 2 ^ 65 }
{
    u128::from(segment.p_vaddr) + u128::from(segment.p_memsz)
}

/// The first page that it meets.
pub fn first_page(segment: &Segment) -> u64
    ensures { result ≡ first_page segment.now }
{
    segment.p_vaddr / PAGE_SIZE
}

/// The first page behind those that it meets.
pub fn page_after(segment: &Segment) -> u64
    ensures { result ≡ page_after segment.now }
{
    let page = u128::from(PAGE_SIZE);
    ((segment_end(segment) + page - 1) / page) as u64
}

/// It meets the page with this number.
pub fn meets(segment: &Segment, number: u64) -> bool
    ensures { result ≡ meets segment.now number }
{
    first_page(segment) <= number && number < page_after(segment)
}
