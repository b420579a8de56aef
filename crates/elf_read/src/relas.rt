//! The relocations of a file.
ghost use Rattle.std.specs.Prelude.{◌≡◌, ◌≤◌, ◌<◌, ◌+◌, ◌*◌, ◌^◌, All, IfOk, IfSome, [], ◌∷◌, length, not, position};
ghost use Rattle.std.specs.Result.{result_err};
ghost use Rattle.elf_read.specs.Elf.{LiesInFile};
ghost use Rattle.elf_read.specs.Records.{rela_at, relas_in, relas_of};
ghost use Rattle.elf_read.specs.Reading.{Answers};
ghost use Rattle.elf_read.specs.Relas.{IsRooted};
ghost use Rattle.elf_read.specs.Rules.{has_relas, has_symbol, is_linked, is_symbols, rela_rules, unless, unless_each};

use crate::constants::{RELAENTSIZE, SHENTSIZE, SHT_REL, SHT_RELA, SHT_SYMTAB};
use crate::fields::u64_at;
use crate::header::Header;
use crate::rules::{require, require_none};
use crate::{ElfFault, Kind, Rela, RelaGroup, Section};
use std::alloc::{AllocError, Global};
use wf_outside::ElfRule;

// The entry at a place.
#[tactic(auto, unfolding(crate::specs::Records::rela_at))]
fn rela_at(bytes: &[u8], at: usize) -> Rela
    requires { at + RELAENTSIZE ≤ length bytes.now }
    ensures { result ≡ rela_at bytes.now at }
{
    Rela {
        r_offset: u64_at(bytes, at),
        r_info: u64_at(bytes, at + 8),
        r_addend: u64_at(bytes, at + 16).cast_signed(),
    }
}

// The entries of a section that lies in the file.
fn read_relas(alloc: Global, bytes: &[u8], section: &Section) -> Result<Vec<Rela>, AllocError>
    requires few { length bytes.now < 2 ^ 32 }
    requires lies { section.now.sh_offset + section.now.sh_size ≤ length bytes.now }
    ensures { IfOk result (λ relas. relas.items ≡ relas_in bytes.now section.now) }
{
    let at = section.sh_offset as usize;
    (0..section.sh_size as usize / RELAENTSIZE)
        .map(|i| rela_at(bytes, at + RELAENTSIZE * i))
        .collect(alloc)
}

// A section's number is that of a symbol table.
fn is_symbols(sections: &[Section], i: usize) -> bool
    ensures { result ≡ is_symbols sections.now i }
{
    sections.get(i).is_some_and(|s| s.sh_type == SHT_SYMTAB)
}

// A section has whole entries, their symbols are in a symbol table, and what they change is there.
fn has_relas(sections: &[Section], section: &Section) -> bool
    ensures { result ≡ has_relas sections.now section.now }
{
    section.sh_entsize == RELAENTSIZE as u64
        && section.sh_size % RELAENTSIZE as u64 == 0
        && is_symbols(sections, section.sh_link as usize)
        && (section.sh_info as usize) < sections.len()
}

// A section is no table of relocations, or it has whole ones with addends.
fn is_linked(sections: &[Section], section: &Section) -> bool
    ensures { result ≡ is_linked sections.now section.now }
{
    section.sh_type != SHT_REL && (section.sh_type != SHT_RELA || has_relas(sections, section))
}

// The number of the first entry whose symbol is not there.
fn first_unlinked(symbols: usize, relas: &[Rela]) -> Option<usize>
    ensures value { result ≡ position (λ r. not (has_symbol symbols r)) relas.now }
    ensures bound { IfSome result (λ i. i < length relas.now) }
{
    relas.iter().position(|r| r.symbol() as usize >= symbols)
}

// The entries of a section of them, or the first whose symbol is not there.
fn checked_entries(
    alloc: Global,
    bytes: &[u8],
    section: &Section,
    symbols: usize,
) -> Result<Vec<Rela>, ElfFault>
    requires few { length bytes.now < 2 ^ 32 }
    requires lies { section.now.sh_offset + section.now.sh_size ≤ length bytes.now }
    ensures { let relas = relas_in bytes.now section.now in
        Answers result (unless_each (has_symbol symbols) ElfRule.Table section.now.sh_offset
        RELAENTSIZE relas ∷ []) (λ v. v.items ≡ relas) }
{
    let relas = read_relas(alloc, bytes, section)?;
    let unlinked = first_unlinked(symbols, &relas);
    require_none(
        unlinked,
        ElfRule::Table,
        section.sh_offset,
        RELAENTSIZE as u64,
    )?;
    Ok(relas)
}

// The groups of a relocatable file with so many symbols, or the first rule about relocations that
// it breaks.
#[tactic(auto, unfolding(crate::specs::Rules::rela_rules))]
fn read_groups(
    alloc: Global,
    bytes: &[u8],
    header: &Header,
    sections: &[Section],
    symbols: usize,
) -> Result<Vec<RelaGroup>, ElfFault>
    requires few { length bytes.now < 2 ^ 32 }
    requires room { header.now.e_shoff + SHENTSIZE * length sections.now ≤ length bytes.now }
    requires lie { All (LiesInFile (length bytes.now)) sections.now }
    ensures { Answers result (rela_rules Kind.Rel bytes.now header.now sections.now symbols)
        (λ v. v.items ≡ relas_of Kind.Rel bytes.now sections.now) }
{
    let mut groups = Vec::new(alloc);
    for (i, section) in sections.iter().enumerate() {
        let at = header.e_shoff + (SHENTSIZE * i) as u64;
        require(is_linked(sections, section), ElfRule::Table, at)?;
        if section.sh_type == SHT_RELA {
            groups.push(RelaGroup {
                section: i as u32,
                target: section.sh_info,
                relas: checked_entries(alloc, bytes, section, symbols)?,
            })?;
        }
    }
    Ok(groups)
}

// The relocations of a file with so many symbols, or the first rule about them that is broken.
#[tactic(auto, unfolding(crate::specs::Rules::rela_rules))]
pub fn checked_relas(
    alloc: Global,
    kind: Kind,
    bytes: &[u8],
    header: &Header,
    sections: &[Section],
    symbols: usize,
) -> Result<Vec<RelaGroup>, ElfFault>
    requires few { length bytes.now < 2 ^ 32 }
    requires room { header.now.e_shoff + SHENTSIZE * length sections.now ≤ length bytes.now }
    requires lie { All (LiesInFile (length bytes.now)) sections.now }
    ensures first { Answers result (rela_rules kind bytes.now header.now sections.now symbols)
        (λ v. v.items ≡ relas_of kind bytes.now sections.now) }
    ensures rooted { IfOk result (λ v. All (IsRooted (length sections.now) symbols) v.items) }
{
    match kind {
        Kind::Exec => Ok(Vec::new(alloc)),
        Kind::Rel => read_groups(alloc, bytes, header, sections, symbols),
    }
}
