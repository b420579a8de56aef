//! Sources of a shelf.
ghost use Rattle.std.specs.Prelude.{◌≡◌, ◌≤◌, ℕ, List, IfOk, IfErr, IfSome, Err};
ghost use Rattle.wf_outside.specs.Files.{HasRisen, first_bytes};
ghost use Rattle.wf_status.specs.declared.status.Status.{Status};
ghost use Rattle.wf_source.specs.Sources.{HoldsFile, IsFile, rule_of, status_of};
ghost use Rattle.wf_source.specs.Fetching.{IsFileStatus, IsSourceStatus, MayFetchFile};

use elf_write::{Form, write};
use rv_asm::{AsmFault, AsmRule, assemble};
use std::alloc::Global;
use wf_fetch::fetch;
use wf_outside::{Memory, Shelf};
use wf_status::{SourceRule, Status};

// A rule of sources, as a status names it.
fn rule_of(rule: AsmRule) -> SourceRule
    ensures { result ≡ rule_of rule }
{
    match rule {
        AsmRule::Syntax => SourceRule::Syntax,
        AsmRule::Twice => SourceRule::Twice,
        AsmRule::Unknown => SourceRule::Unknown,
        AsmRule::Range => SourceRule::Range,
    }
}

/// The answer where a source is not assembled: its first fault with its line, or Memory.
pub fn fault_status(fault: AsmFault) -> Status
    ensures { result ≡ status_of (Err fault) }
{
    match fault {
        AsmFault::At { line, rule } => Status::Source {
            rule: rule_of(rule),
            line,
        },
        AsmFault::Memory => Status::Memory,
    }
}

// The file of the module of this form that a source means.
fn file_of(alloc: Global, source: &[u8], form: Form) -> Result<Vec<u8>, Status>
    ensures file { IfOk result (λ file. IsFile form source.now file.items) }
    ensures cause { IfErr result (IsFileStatus form source.now) }
{
    let module = match assemble(alloc, source, form) {
        Ok(module) => module,
        Err(fault) => return Err(fault_status(fault)),
    };
    match write(alloc, &module) {
        Ok(file) => Ok(file),
        Err(Memory) => Err(Status::Memory),
    }
}

/// The file of the module of this form that a source means, an ELF executable or a relocatable
/// file; or why there is none: Shelf, the limit of the source's bytes, its first fault with its
/// line, and Memory.
pub fn fetch_file<S: Shelf>(
    alloc: Global,
    shelf: &mut S,
    name: &[u8],
    form: Form,
) -> Result<Vec<u8>, Status>
    ensures found { IfOk result
        (λ file. IfSome (S.holds shelf.old)
        (λ files. HoldsFile form (first_bytes name.now files) (λ bytes. bytes ≡ file.items))) }
    ensures cause { IfErr result
        (λ status. IfSome (S.holds shelf.old)
        (λ files. IsSourceStatus form (first_bytes name.now files) status)) }
    ensures kind { IfErr result MayFetchFile }
    ensures shelf { result ≡ Err Status.Shelf
        → HasRisen (S.faults shelf.old name.now) (S.faults shelf.new name.now) }
    ensures holds { S.holds shelf.new ≡ S.holds shelf.old }
    ensures counts { (other : List ℕ) → S.faults shelf.old other ≤ S.faults shelf.new other }
{
    let source = fetch(shelf, name)?;
    file_of(alloc, &source, form)
}
