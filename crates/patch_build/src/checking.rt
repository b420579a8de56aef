//! What an object must keep, before anything of it is placed.
ghost use Rattle.std.specs.Prelude.{◌≡◌, None, Some, OnOk, IfErr};
ghost use Rattle.patch_build.specs.Sections.{broken_by, section_fault};
ghost use Rattle.patch_build.specs.Names.{common_fault};

use crate::constants::{SHF_COMPRESSED, SHF_EXECINSTR, SHF_TLS, SHF_WRITE};
use crate::region::{alignment_of, has_flag, is_loaded};
use crate::{BuildFault, SectionRule};
use elf_read::constants::SHN_COMMON;
use elf_read::{Elf, Section};
use wf_outside::PAGE_SIZE;

// The first rule that keeps a section from being loaded.
fn broken_by(section: &Section) -> Option<SectionRule>
    ensures { result ≡ broken_by section.now }
{
    if has_flag(section, SHF_TLS) {
        return Some(SectionRule::Tls);
    }
    if has_flag(section, SHF_COMPRESSED) {
        return Some(SectionRule::Compressed);
    }
    let alignment = alignment_of(section);
    if !alignment.is_power_of_two() || PAGE_SIZE < alignment {
        return Some(SectionRule::Align);
    }
    if has_flag(section, SHF_WRITE) && has_flag(section, SHF_EXECINSTR) {
        return Some(SectionRule::WriteAndRun);
    }
    None
}

/// No section that is to be loaded breaks a rule.
pub fn check_sections(object: &Elf) -> Result<(), BuildFault>
    ensures ok { OnOk result (section_fault 0 object.now.sections ≡ None) }
    ensures fault { IfErr result (λ fault. section_fault 0 object.now.sections ≡ Some fault) }
{
    for (index, section) in object.sections().iter().enumerate() {
        if is_loaded(section) {
            if let Some(rule) = broken_by(section) {
                return Err(BuildFault::Section {
                    index: index as u32,
                    rule,
                });
            }
        }
    }
    Ok(())
}

/// No symbol is still to be given a place.
pub fn check_symbols(object: &Elf) -> Result<(), BuildFault>
    ensures ok { OnOk result (common_fault 0 object.now.symbols ≡ None) }
    ensures fault { IfErr result (λ fault. common_fault 0 object.now.symbols ≡ Some fault) }
{
    for (number, symbol) in object.symbols().iter().enumerate() {
        if symbol.st_shndx == SHN_COMMON {
            return Err(BuildFault::Common {
                symbol: number as u32,
            });
        }
    }
    Ok(())
}
