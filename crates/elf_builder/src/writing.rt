//! The file, part by part.
ghost use Rattle.std.specs.Prelude.{◌<◌, ◌^◌, IfOk, vec_len};

use crate::BuilderFault;
use crate::builder::{Change, KeptSegment, KeptSymbol, WantedHeader};
use crate::numbers::{FILE_END, count_of, pad, push_u16, push_u32, push_u64};
use elf_read::constants::{
    EHSIZE, ELFCLASS64, ELFDATA2LSB, EV_CURRENT, PF_W, PF_X, PHENTSIZE, SHENTSIZE, SHT_NOBITS,
    SHT_NULL, SHT_PROGBITS, SHT_STRTAB, SHT_SYMTAB, STB_LOCAL, SYMENTSIZE,
};
use elf_read::{Section, Segment};
use std::alloc::Global;

const SHF_WRITE: u64 = 1;

const SHF_ALLOC: u64 = 2;

const SHF_EXECINSTR: u64 = 4;

// The parts of a file behind its header: the program headers, the contents, which begin at `base`,
// and the section headers.
#[derive(Drop)]
struct Parts {
    base: u64,
    segments: Vec<u8>,
    contents: Vec<u8>,
    sections: Vec<u8>,
}

fn push_segment(bytes: &mut Vec<u8>, segment: &Segment) -> Result<(), BuilderFault> {
    push_u32(bytes, segment.p_type)?;
    push_u32(bytes, segment.p_flags)?;
    push_u64(bytes, segment.p_offset)?;
    push_u64(bytes, segment.p_vaddr)?;
    push_u64(bytes, segment.p_paddr)?;
    push_u64(bytes, segment.p_filesz)?;
    push_u64(bytes, segment.p_memsz)?;
    push_u64(bytes, segment.p_align)
}

fn push_section(bytes: &mut Vec<u8>, section: &Section) -> Result<(), BuilderFault> {
    push_u32(bytes, section.sh_name)?;
    push_u32(bytes, section.sh_type)?;
    push_u64(bytes, section.sh_flags)?;
    push_u64(bytes, section.sh_addr)?;
    push_u64(bytes, section.sh_offset)?;
    push_u64(bytes, section.sh_size)?;
    push_u32(bytes, section.sh_link)?;
    push_u32(bytes, section.sh_info)?;
    push_u64(bytes, section.sh_addralign)?;
    push_u64(bytes, section.sh_entsize)
}

fn push_symbol(bytes: &mut Vec<u8>, symbol: &KeptSymbol) -> Result<(), BuilderFault> {
    push_u32(bytes, symbol.st_name)?;
    bytes.push(symbol.st_info)?;
    bytes.push(0)?;
    push_u16(bytes, symbol.st_shndx)?;
    push_u64(bytes, symbol.st_value)?;
    push_u64(bytes, symbol.st_size)
}

// The header of a section that isn't there.
fn no_section() -> Section {
    Section {
        sh_name: 0,
        sh_type: SHT_NULL,
        sh_flags: 0,
        sh_addr: 0,
        sh_offset: 0,
        sh_size: 0,
        sh_link: 0,
        sh_info: 0,
        sh_addralign: 0,
        sh_entsize: 0,
    }
}

// The section of a segment.
fn section_of(segment: &Segment) -> Section {
    let mut flags = SHF_ALLOC;
    if segment.p_flags & PF_W != 0 {
        flags |= SHF_WRITE;
    }
    if segment.p_flags & PF_X != 0 {
        flags |= SHF_EXECINSTR;
    }
    let in_file = segment.p_filesz > 0;
    Section {
        sh_type: if in_file { SHT_PROGBITS } else { SHT_NOBITS },
        sh_flags: flags,
        sh_addr: segment.p_vaddr,
        sh_offset: segment.p_offset,
        sh_size: segment.p_filesz,
        sh_addralign: segment.p_align,
        ..no_section()
    }
}

// The number of the first symbol that other files see; symbol 0 stands for none.
fn first_global(symbols: &[KeptSymbol]) -> Result<u32, BuilderFault> {
    let found = symbols.iter().position(|s| s.st_info / 16 != STB_LOCAL);
    let locals = found.unwrap_or(symbols.len());
    u32::try_from(locals.saturating_add(1)).map_err(|_| BuilderFault::TooLong)
}

impl Parts {
    // The place behind the contents so far.
    fn end(&self) -> Result<u64, BuilderFault> {
        match self.base.checked_add(self.contents.len() as u64) {
            Some(end) if end < FILE_END => Ok(end),
            _ => Err(BuilderFault::TooLong),
        }
    }

    // Goes on to the next place that leaves the same rest as an address, when divided by the
    // alignment.
    fn align(&mut self, address: u64, alignment: u64) -> Result<u64, BuilderFault> {
        let end = self.end()?;
        if alignment > 1 {
            pad(&mut self.contents, address.wrapping_sub(end) % alignment)?;
        }
        self.end()
    }

    // One more segment, its program header and its section.
    fn segment(&mut self, segment: &KeptSegment) -> Result<(), BuilderFault> {
        let p_offset = self.align(segment.p_vaddr, segment.p_align)?;
        self.contents.extend_from_slice(&segment.bytes)?;
        let header = Segment {
            p_type: segment.p_type,
            p_flags: segment.p_flags,
            p_offset,
            p_vaddr: segment.p_vaddr,
            p_paddr: segment.p_vaddr,
            p_filesz: segment.bytes.len() as u64,
            p_memsz: segment.p_memsz,
            p_align: segment.p_align,
        };
        push_segment(&mut self.segments, &header)?;
        push_section(&mut self.sections, &section_of(&header))
    }

    // The symbols; their names stand in the section with this number.
    fn symbols(&mut self, symbols: &[KeptSymbol], names: u32) -> Result<(), BuilderFault> {
        let sh_offset = self.align(0, 8)?;
        pad(&mut self.contents, SYMENTSIZE as u64)?;
        for symbol in symbols {
            push_symbol(&mut self.contents, symbol)?;
        }
        let section = Section {
            sh_type: SHT_SYMTAB,
            sh_offset,
            sh_size: self.end()?.saturating_sub(sh_offset),
            sh_link: names,
            sh_info: first_global(symbols)?,
            sh_addralign: 8,
            sh_entsize: SYMENTSIZE as u64,
            ..no_section()
        };
        push_section(&mut self.sections, &section)
    }

    // The string table: a zero byte, and the names.
    fn names(&mut self, names: &[u8]) -> Result<(), BuilderFault> {
        let sh_offset = self.end()?;
        self.contents.push(0)?;
        self.contents.extend_from_slice(names)?;
        let section = Section {
            sh_type: SHT_STRTAB,
            sh_offset,
            sh_size: self.end()?.saturating_sub(sh_offset),
            sh_addralign: 1,
            ..no_section()
        };
        push_section(&mut self.sections, &section)
    }
}

// What the file's header says of the section headers.
#[derive(Clone, Copy)]
struct SectionHeaders {
    place: u64,
    size: u16,
    count: u16,
    names: u16,
}

// The file's header.
fn write_header(
    alloc: Global,
    header: &WantedHeader,
    segments: u16,
    sections: SectionHeaders,
) -> Result<Vec<u8>, BuilderFault> {
    let mut bytes = Vec::new(alloc);
    bytes.extend_from_slice(b"\x7FELF")?;
    bytes.extend_from_slice(&[ELFCLASS64, ELFDATA2LSB, EV_CURRENT])?;
    pad(&mut bytes, 9)?;
    push_u16(&mut bytes, header.e_type)?;
    push_u16(&mut bytes, header.e_machine)?;
    push_u32(&mut bytes, u32::from(EV_CURRENT))?;
    push_u64(&mut bytes, header.e_entry)?;
    push_u64(&mut bytes, EHSIZE as u64)?;
    push_u64(&mut bytes, sections.place)?;
    push_u32(&mut bytes, header.e_flags)?;
    push_u16(&mut bytes, EHSIZE as u16)?;
    push_u16(&mut bytes, PHENTSIZE as u16)?;
    push_u16(&mut bytes, segments)?;
    push_u16(&mut bytes, sections.size)?;
    push_u16(&mut bytes, sections.count)?;
    push_u16(&mut bytes, sections.names)?;
    Ok(bytes)
}

// The symbols, their names and the section headers' place, behind the segments.
fn write_tables(
    parts: &mut Parts,
    segments: u16,
    symbols: &[KeptSymbol],
    names: &[u8],
) -> Result<SectionHeaders, BuilderFault> {
    let strings = count_of(usize::from(segments) + 2)?;
    let count = count_of(usize::from(segments) + 3)?;
    parts.symbols(symbols, u32::from(strings))?;
    parts.names(names)?;
    let place = parts.align(0, 8)?;
    Ok(SectionHeaders {
        place,
        size: SHENTSIZE as u16,
        count,
        names: strings,
    })
}

// The parts behind the header with these segments.
fn parts_of(alloc: Global, segments: &[KeptSegment]) -> Result<Parts, BuilderFault> {
    let count = count_of(segments.len())?;
    let mut parts = Parts {
        base: EHSIZE as u64 + PHENTSIZE as u64 * u64::from(count),
        segments: Vec::new(alloc),
        contents: Vec::new(alloc),
        sections: Vec::new(alloc),
    };
    push_section(&mut parts.sections, &no_section())?;
    for segment in segments {
        parts.segment(segment)?;
    }
    Ok(parts)
}

// The file; where there are names, with a symbol table and section headers.
pub fn write_file(
    alloc: Global,
    header: &WantedHeader,
    segments: &[KeptSegment],
    symbols: &[KeptSymbol],
    names: Option<&[u8]>,
) -> Result<Vec<u8>, BuilderFault>
    ensures { IfOk result (λ bytes. vec_len bytes < 2 ^ 32) }
{
    let count = count_of(segments.len())?;
    let mut parts = parts_of(alloc, segments)?;
    let mut tables = SectionHeaders {
        place: 0,
        size: 0,
        count: 0,
        names: 0,
    };
    if let Some(names) = names {
        tables = write_tables(&mut parts, count, symbols, names)?;
    }
    let mut bytes = write_header(alloc, header, count, tables)?;
    bytes.extend_from_slice(&parts.segments)?;
    bytes.extend_from_slice(&parts.contents)?;
    if tables.count > 0 {
        bytes.extend_from_slice(&parts.sections)?;
    }
    if bytes.len() as u64 >= FILE_END {
        return Err(BuilderFault::TooLong);
    }
    Ok(bytes)
}

// The bytes of a change are put over those at its place.
pub fn apply(bytes: &mut [u8], change: &Change) -> Result<(), BuilderFault> {
    let size = bytes.len();
    let at = change.at as usize;
    let width = change.bytes.len();
    if at > size || width > size - at {
        return Err(BuilderFault::PastEnd { at: change.at });
    }
    bytes[at..at + width].copy_from_slice(&change.bytes);
    Ok(())
}
