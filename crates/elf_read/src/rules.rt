//! The rules of a file.
ghost use Rattle.std.specs.Prelude.{◌≡◌, ◌<◌, ◌≤◌, ◌+◌, ◌*◌, ◌^◌, length, nat_le, not, position, IfSome};
ghost use Rattle.std.specs.List.{enumerate_from};
ghost use Rattle.std.specs.Option.{option_map};
ghost use Rattle.std.specs.Result.{result_err};
ghost use Rattle.wf_outside.specs.Lists.{first_of};
ghost use Rattle.elf_read.specs.Records.{is_symtab};
ghost use Rattle.elf_read.specs.Rules.{unless, unless_each, type_of, ident_rules, target_rules, layout_rules, fits_file, lies_in_file, is_strings, has_symbols, is_only_symtab, ends_in, has_home, segment_rules, section_rules, symbol_rules};

use crate::constants::{
    E_FLAGS_PLACE, E_MACHINE_PLACE, E_PHENTSIZE_PLACE, E_PHOFF_PLACE, E_SHENTSIZE_PLACE,
    E_SHOFF_PLACE, E_SHSTRNDX_PLACE, E_TYPE_PLACE, EF_RISCV_RVC, EF_RISCV_RVE, EHSIZE, EI_CLASS,
    EI_DATA, ELFCLASS64, ELFDATA2LSB, EM_RISCV, ET_EXEC, ET_REL, PHENTSIZE, PT_LOAD, SHENTSIZE,
    SHN_LORESERVE, SHN_XINDEX, SHT_NOBITS, SHT_NULL, SHT_STRTAB, SHT_SYMTAB, SYMENTSIZE,
};
use crate::header::Header;
use crate::symbols::SymbolTable;
use crate::{ElfFault, Kind, Section, Segment, Span, Symbol};
use wf_outside::ElfRule;

// The fault at this place, unless the rule holds.
pub fn require(holds: bool, rule: ElfRule, at: u64) -> Result<(), ElfFault>
    ensures { result_err result ≡ unless holds rule at }
{
    if holds {
        Ok(())
    } else {
        Err(ElfFault::Rule { rule, at })
    }
}

// The first rule of the identification that is broken.
pub fn check_ident(bytes: &[u8]) -> Result<(), ElfFault>
    requires { EHSIZE ≤ length bytes.now }
    ensures { result_err result ≡ first_of (ident_rules bytes.now) }
{
    require(bytes.starts_with(b"\x7FELF"), ElfRule::Magic, 0)?;
    require(
        bytes[EI_CLASS] == ELFCLASS64,
        ElfRule::Class,
        EI_CLASS as u64,
    )?;
    require(
        bytes[EI_DATA] == ELFDATA2LSB,
        ElfRule::Order,
        EI_DATA as u64,
    )
}

// The number in the header of a kind of file.
fn type_of(kind: Kind) -> u16
    ensures { result ≡ type_of kind }
{
    match kind {
        Kind::Exec => ET_EXEC,
        Kind::Rel => ET_REL,
    }
}

// The first rule about what the file is for that is broken.
pub fn check_target(kind: Kind, header: &Header) -> Result<(), ElfFault>
    ensures { result_err result ≡ first_of (target_rules kind header.now) }
{
    require(
        header.e_type == type_of(kind),
        ElfRule::Kind,
        E_TYPE_PLACE as u64,
    )?;
    require(
        header.e_machine == EM_RISCV,
        ElfRule::Machine,
        E_MACHINE_PLACE as u64,
    )?;
    let plain = header.e_flags & EF_RISCV_RVC == 0 && header.e_flags & EF_RISCV_RVE == 0;
    require(plain, ElfRule::Flags, E_FLAGS_PLACE as u64)
}

// Where so many bytes from a place on end.
fn range_end(at: u64, len: u64) -> u128
    ensures { result ≡ at + len }
{
    u128::from(at) + u128::from(len)
}

// So many bytes from a place on end in a file of this size.
fn is_within(at: u64, len: u64, size: u64) -> bool
    ensures { result ≡ nat_le (at + len) size }
{
    range_end(at, len) <= u128::from(size)
}

// The first rule about the tables of headers that is broken.
pub fn check_layout(size: u64, header: &Header) -> Result<(), ElfFault>
    ensures { result_err result ≡ first_of (layout_rules size header.now) }
{
    let h = header;
    let no_segments = h.e_phnum == 0;
    require(
        no_segments || usize::from(h.e_phentsize) == PHENTSIZE,
        ElfRule::Table,
        E_PHENTSIZE_PLACE as u64,
    )?;
    require(
        no_segments || is_within(h.e_phoff, PHENTSIZE as u64 * u64::from(h.e_phnum), size),
        ElfRule::Table,
        E_PHOFF_PLACE as u64,
    )?;
    let plain = if h.e_shnum == 0 {
        h.e_shoff == 0
    } else {
        usize::from(h.e_shentsize) == SHENTSIZE
    };
    require(plain, ElfRule::Table, E_SHENTSIZE_PLACE as u64)?;
    require(
        is_within(h.e_shoff, SHENTSIZE as u64 * u64::from(h.e_shnum), size),
        ElfRule::Table,
        E_SHOFF_PLACE as u64,
    )
}

// A segment that is to be loaded has its part of the file, memory for it, and addresses for that.
fn fits_file(size: u64, segment: &Segment) -> bool
    ensures { result ≡ fits_file size segment.now }
{
    segment.p_type != PT_LOAD
        || (is_within(segment.p_offset, segment.p_filesz, size)
            && segment.p_filesz <= segment.p_memsz
            && range_end(segment.p_vaddr, segment.p_memsz) <= 1 << 64)
}

// A section with bytes in the file has them there.
fn lies_in_file(size: u64, section: &Section) -> bool
    ensures { result ≡ lies_in_file size section.now }
{
    section.sh_type == SHT_NULL
        || section.sh_type == SHT_NOBITS
        || is_within(section.sh_offset, section.sh_size, size)
}

// A section's number is that of a string table.
fn is_strings(sections: &[Section], i: usize) -> bool
    ensures { result ≡ is_strings sections.now i }
{
    sections.get(i).is_some_and(|s| s.sh_type == SHT_STRTAB)
}

// A section has whole symbols, and their names are in a string table.
fn has_symbols(sections: &[Section], section: &Section) -> bool
    ensures { result ≡ has_symbols sections.now section.now }
{
    section.sh_entsize == SYMENTSIZE as u64
        && section.sh_size % SYMENTSIZE as u64 == 0
        && is_strings(sections, section.sh_link as usize)
}

// The fault at the record with this number in a table, if there is one.
pub fn require_none(first: Option<usize>, rule: ElfRule, at: u64, size: u64) -> Result<(), ElfFault>
    requires { IfSome first (λ i. at + size * i < 2 ^ 64) }
    ensures { result_err result ≡ option_map (λ i. ElfFault.Rule rule (at + size * i)) first }
{
    match first {
        None => Ok(()),
        Some(i) => Err(ElfFault::Rule {
            rule,
            at: at + size * i as u64,
        }),
    }
}

// The number of the first segment that does not fit the file.
fn first_unfit(file: u64, segments: &[Segment]) -> Option<usize>
    ensures value { result ≡ position (λ s. not (fits_file file s)) segments.now }
    ensures bound { IfSome result (λ i. i < length segments.now) }
{
    segments.iter().position(|s| !fits_file(file, s))
}

// The number of the first section that does not lie in the file.
fn first_outside(file: u64, sections: &[Section]) -> Option<usize>
    ensures value { result ≡ position (λ s. not (lies_in_file file s)) sections.now }
    ensures bound { IfSome result (λ i. i < length sections.now) }
{
    sections.iter().position(|s| !lies_in_file(file, s))
}

// The number of the first symbol table.
fn first_symtab(sections: &[Section]) -> Option<usize>
    ensures { result ≡ position is_symtab sections.now }
{
    sections.iter().position(|s| s.sh_type == SHT_SYMTAB)
}

// Section i is no symbol table, or it is the first one and has symbols.
fn is_only_symtab(sections: &[Section], first: Option<usize>, i: usize, section: &Section) -> bool
    requires { first ≡ position is_symtab sections.now }
    ensures { result ≡ is_only_symtab sections.now (i, section.now) }
{
    section.sh_type != SHT_SYMTAB
        || first.is_some_and(|first| i == first) && has_symbols(sections, section)
}

// The number of the first symbol table that is not the only one, or has no symbols.
fn first_wrong_symtab(sections: &[Section]) -> Option<usize>
    ensures value { result
        ≡ position (λ s. not (is_only_symtab sections.now s)) (enumerate_from 0 sections.now) }
    ensures bound { IfSome result (λ i. i < length sections.now) }
{
    let first = first_symtab(sections);
    sections
        .iter()
        .enumerate()
        .position(|(i, s)| !is_only_symtab(sections, first, i, s))
}

// The first rule about segments that is broken.
#[tactic(auto, unfolding(crate::specs::Rules::segment_rules))]
pub fn check_segments(file: u64, header: &Header, segments: &[Segment]) -> Result<(), ElfFault>
    requires { 0 < length segments.now
        → header.now.e_phoff + PHENTSIZE * length segments.now < 2 ^ 64 }
    ensures { result_err result ≡ first_of (segment_rules file header.now segments.now) }
{
    require_none(
        first_unfit(file, segments),
        ElfRule::Range,
        header.e_phoff,
        PHENTSIZE as u64,
    )
}

// The first rule about sections that is broken.
#[tactic(auto, unfolding(crate::specs::Rules::section_rules))]
pub fn check_sections(file: u64, header: &Header, sections: &[Section]) -> Result<(), ElfFault>
    requires { header.now.e_shoff + SHENTSIZE * length sections.now < 2 ^ 64 }
    ensures { result_err result ≡ first_of (section_rules file header.now sections.now) }
{
    let at = header.e_shoff;
    require_none(
        first_outside(file, sections),
        ElfRule::Range,
        at,
        SHENTSIZE as u64,
    )?;
    let names = header.e_shstrndx as usize;
    let named = header.e_shnum == 0 || names == 0 || is_strings(sections, names);
    require(named, ElfRule::Strings, E_SHSTRNDX_PLACE as u64)?;
    require_none(
        first_wrong_symtab(sections),
        ElfRule::Table,
        at,
        SHENTSIZE as u64,
    )
}

// The end of the name lies in the string table.
fn ends_in(names: Span, symbol: &Symbol) -> bool
    ensures { result ≡ ends_in names symbol.now }
{
    range_end(symbol.st_name.at, symbol.st_name.len) < range_end(names.at, names.len)
}

// The number of the first symbol whose name does not end in the string table.
fn first_unnamed(names: Span, symbols: &[Symbol]) -> Option<usize>
    ensures value { result ≡ position (λ s. not (ends_in names s)) symbols.now }
    ensures bound { IfSome result (λ i. i < length symbols.now) }
{
    symbols.iter().position(|s| !ends_in(names, s))
}

// The symbol's section is one of so many, or has a number with a meaning of its own.
fn has_home(sections: u16, symbol: &Symbol) -> bool
    ensures { result ≡ has_home sections symbol.now }
{
    let home = symbol.st_shndx;
    home < sections || SHN_LORESERVE <= home && home != SHN_XINDEX
}

// The number of the first symbol whose section is not there.
fn first_homeless(sections: u16, symbols: &[Symbol]) -> Option<usize>
    ensures value { result ≡ position (λ s. not (has_home sections s)) symbols.now }
    ensures bound { IfSome result (λ i. i < length symbols.now) }
{
    symbols.iter().position(|s| !has_home(sections, s))
}

// The first rule about symbols that is broken.
#[tactic(auto, unfolding(crate::specs::Rules::symbol_rules))]
pub fn check_symbols(
    header: &Header,
    table: &SymbolTable,
    symbols: &[Symbol],
) -> Result<(), ElfFault>
    requires { table.now.at + SYMENTSIZE * length symbols.now < 2 ^ 64 }
    ensures { result_err result ≡ first_of (symbol_rules header.now table.now symbols.now) }
{
    let unnamed = first_unnamed(table.names, symbols);
    require_none(unnamed, ElfRule::Strings, table.at, SYMENTSIZE as u64)?;
    let homeless = first_homeless(header.e_shnum, symbols);
    require_none(homeless, ElfRule::Table, table.at, SYMENTSIZE as u64)
}
