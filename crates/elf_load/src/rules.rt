//! The rules on single headers, and on the size of what is loaded.
ghost use Rattle.std.specs.Prelude.{◌≡◌, ◌&&◌, None, Some, [], nat_lt, OnOk, IfErr};
ghost use Rattle.elf_load.specs.Segments.{is_load, is_writable, is_executable, segment_end};
ghost use Rattle.elf_load.specs.Rules.{linked, too_large, header_fault};
ghost use Rattle.elf_load.specs.Demands.{breaks_of};

use crate::LoadFault;
use crate::segments::{first_page, is_executable, is_load, is_writable, page_after, segment_end};
use elf_read::constants::{PT_DYNAMIC, PT_INTERP, PT_TLS};
use elf_read::{Elf, Segment};
use wf_outside::{DATA_END, LoadRule, MOST_IMAGE_PAGES};

/// What is asked of each header by itself.
#[derive(Clone, Copy)]
pub enum Demand {
    /// Nothing is left to link.
    Linked,
    /// No segment is writable and executable.
    Rights,
    /// All end below the stacks.
    Low,
}

// The type asks for more than loading.
fn unlinked(segment: &Segment) -> Option<LoadRule>
    ensures { result ≡ linked [] segment.now }
{
    match segment.p_type {
        PT_TLS => Some(LoadRule::TlsSegment),
        PT_INTERP => Some(LoadRule::Interp),
        PT_DYNAMIC => Some(LoadRule::Dynamic),
        _ => None,
    }
}

// It may be written and run.
fn writes_and_runs(segment: &Segment) -> bool
    ensures { result
        ≡ (is_load segment.now && is_writable segment.now && is_executable segment.now) }
{
    is_load(segment) && is_writable(segment) && is_executable(segment)
}

// It ends above the addresses of images.
fn ends_high(segment: &Segment) -> bool
    ensures { result ≡ (is_load segment.now && nat_lt DATA_END (segment_end segment.now)) }
{
    is_load(segment) && u128::from(DATA_END) < segment_end(segment)
}

impl Demand {
    // The rule that the header breaks.
    fn broken_by(self, segment: &Segment) -> Option<LoadRule>
        ensures { result ≡ breaks_of self [] segment.now }
    {
        match self {
            Demand::Linked => unlinked(segment),
            Demand::Rights => writes_and_runs(segment).then_some(LoadRule::WriteAndRun),
            Demand::Low => ends_high(segment).then_some(LoadRule::HighAddress),
        }
    }
}

/// Each header meets the demand.
pub fn check_headers(elf: &Elf, demand: Demand) -> Result<(), LoadFault>
    ensures ok { OnOk result (header_fault elf.now (breaks_of demand) ≡ None) }
    ensures fault { IfErr result (λ fault. header_fault elf.now (breaks_of demand) ≡ Some fault) }
{
    for (i, segment) in elf.segments().iter().enumerate() {
        if let Some(rule) = demand.broken_by(segment) {
            return Err(LoadFault::Rule {
                rule,
                at: elf.segment_place(i),
            });
        }
    }
    Ok(())
}

/// The segments meet no more pages than an image may have.
pub fn check_size(elf: &Elf) -> Result<(), LoadFault>
    ensures ok { OnOk result (header_fault elf.now too_large ≡ None) }
    ensures fault { IfErr result (λ fault. header_fault elf.now too_large ≡ Some fault) }
{
    let mut pages = 0;
    for (i, segment) in elf.segments().iter().enumerate() {
        if is_load(segment) {
            pages += page_after(segment) - first_page(segment);
            if MOST_IMAGE_PAGES < pages {
                return Err(LoadFault::Rule {
                    rule: LoadRule::TooLarge,
                    at: elf.segment_place(i),
                });
            }
        }
    }
    Ok(())
}
