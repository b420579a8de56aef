//! The tables of a file that breaks no rule.
ghost use Rattle.std.specs.Prelude.{◌≡◌, ◌<◌, ◌^◌, length, IfOk, All, ◌⊎◌, Err};
ghost use Rattle.std.specs.Result.{result_err};
ghost use Rattle.elf_read.specs.Records.{header_of, segments_of, sections_of, symbol_table, symbols_of, relas_of};
ghost use Rattle.elf_read.specs.Reading.{Checks, Answers, IsLaidOut, AreSymbolsIn};
ghost use Rattle.elf_read.specs.Rules.{header_rules, segment_rules, section_rules, symbol_rules, first_fault};
ghost use Rattle.elf_read.specs.Elf.{FitsFile, LiesInFile, IsNamed, HasHome, IsKept};

use crate::constants::EHSIZE;
use crate::header::{Header, header_of};
use crate::relas::checked_relas;
use crate::rules::{
    check_ident, check_layout, check_sections, check_segments, check_symbols, check_target, require,
};
use crate::symbols::{SymbolTable, read_symbols, symbol_table};
use crate::tables::{read_sections, read_segments};
use crate::{ElfFault, Kind, RelaGroup, Section, Segment, Symbol};
use std::alloc::Global;
use wf_outside::ElfRule;

// The header of a file and what stands in its tables.
#[derive(Drop)]
pub struct Tables {
    pub header: Header,
    pub segments: Vec<Segment>,
    pub sections: Vec<Section>,
    pub symbols: Vec<Symbol>,
    pub relas: Vec<RelaGroup>,
}

// The header of a file whose header breaks no rule, or the first rule that it breaks.
#[tactic(auto, using(crate::proofs::RuleLemmas::laid_out), unfolding(crate::specs::Rules::header_rules))]
pub fn checked_header(kind: Kind, bytes: &[u8]) -> Result<Header, ElfFault>
    ensures first { Checks result (header_rules kind bytes.now) (λ h. h ≡ header_of bytes.now) }
    ensures laid_out { IfOk result (IsLaidOut (length bytes.now)) }
{
    let size = bytes.len() as u64;
    require(size >= EHSIZE as u64, ElfRule::Short, size)?;
    check_ident(bytes)?;
    let header = header_of(bytes);
    check_target(kind, &header)?;
    check_layout(size, &header)?;
    Ok(header)
}

// The program headers, or the first rule about them that is broken.
pub fn checked_segments(
    alloc: Global,
    bytes: &[u8],
    header: &Header,
) -> Result<Vec<Segment>, ElfFault>
    requires few { length bytes.now < 2 ^ 32 }
    requires laid_out { IsLaidOut (length bytes.now) header.now }
    ensures first { let segments = segments_of bytes.now header.now in
        Answers result (segment_rules (length bytes.now) header.now segments)
        (λ v. v.items ≡ segments) }
    ensures fit { IfOk result (λ v. All (FitsFile (length bytes.now)) v.items) }
{
    let at = header.e_phoff as usize;
    let segments = read_segments(alloc, bytes, at, header.e_phnum as usize)?;
    check_segments(bytes.len() as u64, header, &segments)?;
    Ok(segments)
}

// The section headers, or the first rule about them that is broken.
pub fn checked_sections(
    alloc: Global,
    bytes: &[u8],
    header: &Header,
) -> Result<Vec<Section>, ElfFault>
    requires few { length bytes.now < 2 ^ 32 }
    requires laid_out { IsLaidOut (length bytes.now) header.now }
    ensures first { let sections = sections_of bytes.now header.now in
        Answers result (section_rules (length bytes.now) header.now sections)
        (λ v. v.items ≡ sections) }
    ensures symbols { IfOk result (λ v. AreSymbolsIn (length bytes.now) (symbol_table v.items)) }
    ensures lie { IfOk result (λ v. All (LiesInFile (length bytes.now)) v.items) }
{
    let at = header.e_shoff as usize;
    let sections = read_sections(alloc, bytes, at, header.e_shnum as usize)?;
    check_sections(bytes.len() as u64, header, &sections)?;
    Ok(sections)
}

// The symbols, or the first rule about them that is broken.
pub fn checked_symbols(
    alloc: Global,
    bytes: &[u8],
    header: &Header,
    table: &SymbolTable,
) -> Result<Vec<Symbol>, ElfFault>
    requires few { length bytes.now < 2 ^ 32 }
    requires symbols { AreSymbolsIn (length bytes.now) table.now }
    ensures first { let symbols = symbols_of bytes.now table.now in
        Answers result (symbol_rules header.now table.now symbols) (λ v. v.items ≡ symbols) }
    ensures named { IfOk result (λ v. All (IsNamed (length bytes.now)) v.items) }
    ensures homes { IfOk result (λ v. All (HasHome header.now.e_shnum) v.items) }
{
    let symbols = read_symbols(alloc, bytes, table)?;
    check_symbols(header, table, &symbols)?;
    Ok(symbols)
}

// The header of a file and its tables, or the first rule that it breaks.
pub fn read_tables(alloc: Global, kind: Kind, bytes: &[u8]) -> Result<Tables, ElfFault>
    requires { length bytes.now < 2 ^ 32 }
    ensures header { IfOk result (λ t. t.header ≡ header_of bytes.now) }
    ensures segments { IfOk result
        (λ t. t.segments.items ≡ segments_of bytes.now (header_of bytes.now)) }
    ensures sections { IfOk result
        (λ t. t.sections.items ≡ sections_of bytes.now (header_of bytes.now)) }
    ensures symbols { IfOk result
        (λ t. t.symbols.items ≡ symbols_of bytes.now (symbol_table t.sections.items)) }
    ensures relas { IfOk result
        (λ t. t.relas.items ≡ relas_of kind bytes.now t.sections.items) }
    ensures kept { IfOk result (λ t. IsKept bytes.now t.header t.segments.items t.sections.items
        t.symbols.items t.relas.items) }
    ensures fault { (result ≡ Err ElfFault.Memory)
        ⊎ (result_err result ≡ first_fault kind bytes.now) }
{
    let header = checked_header(kind, bytes)?;
    let segments = checked_segments(alloc, bytes, &header)?;
    let sections = checked_sections(alloc, bytes, &header)?;
    let table = symbol_table(&sections);
    let symbols = checked_symbols(alloc, bytes, &header, &table)?;
    let relas = checked_relas(alloc, kind, bytes, &header, &sections, symbols.len())?;
    Ok(Tables {
        header,
        segments,
        sections,
        symbols,
        relas,
    })
}
