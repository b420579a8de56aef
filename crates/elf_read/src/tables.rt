//! The tables of headers.
ghost use Rattle.std.specs.Prelude.{◌≡◌, ◌≤◌, ◌<◌, ◌+◌, ◌*◌, length, IfOk};
ghost use Rattle.elf_read.specs.Records.{segment_at, section_at, table};

use crate::constants::{PHENTSIZE, SHENTSIZE};
use crate::fields::{u32_at, u64_at};
use crate::{Section, Segment};
use std::alloc::{AllocError, Global};

// The program header at a place.
#[tactic(auto, unfolding(crate::specs::Records::segment_at))]
fn segment_at(bytes: &[u8], at: usize) -> Segment
    requires { at + PHENTSIZE ≤ length bytes.now }
    ensures { result ≡ segment_at bytes.now at }
{
    Segment {
        p_type: u32_at(bytes, at),
        p_flags: u32_at(bytes, at + 4),
        p_offset: u64_at(bytes, at + 8),
        p_vaddr: u64_at(bytes, at + 16),
        p_paddr: u64_at(bytes, at + 24),
        p_filesz: u64_at(bytes, at + 32),
        p_memsz: u64_at(bytes, at + 40),
        p_align: u64_at(bytes, at + 48),
    }
}

// The section header at a place.
#[tactic(auto, unfolding(crate::specs::Records::section_at))]
fn section_at(bytes: &[u8], at: usize) -> Section
    requires { at + SHENTSIZE ≤ length bytes.now }
    ensures { result ≡ section_at bytes.now at }
{
    Section {
        sh_name: u32_at(bytes, at),
        sh_type: u32_at(bytes, at + 4),
        sh_flags: u64_at(bytes, at + 8),
        sh_addr: u64_at(bytes, at + 16),
        sh_offset: u64_at(bytes, at + 24),
        sh_size: u64_at(bytes, at + 32),
        sh_link: u32_at(bytes, at + 40),
        sh_info: u32_at(bytes, at + 44),
        sh_addralign: u64_at(bytes, at + 48),
        sh_entsize: u64_at(bytes, at + 56),
    }
}

// So many program headers from a place on.
pub fn read_segments(
    alloc: Global,
    bytes: &[u8],
    at: usize,
    count: usize,
) -> Result<Vec<Segment>, AllocError>
    requires { 0 < count → at + PHENTSIZE * count ≤ length bytes.now }
    ensures { IfOk result
        (λ segments. segments.items ≡ table (segment_at bytes.now) at PHENTSIZE count) }
{
    (0..count)
        .map(|i| segment_at(bytes, at + PHENTSIZE * i))
        .collect(alloc)
}

// So many section headers from a place on.
pub fn read_sections(
    alloc: Global,
    bytes: &[u8],
    at: usize,
    count: usize,
) -> Result<Vec<Section>, AllocError>
    requires { at + SHENTSIZE * count ≤ length bytes.now }
    ensures { IfOk result
        (λ sections. sections.items ≡ table (section_at bytes.now) at SHENTSIZE count) }
{
    (0..count)
        .map(|i| section_at(bytes, at + SHENTSIZE * i))
        .collect(alloc)
}
