//! ELF files of 64 bits for RISC-V: what stands in their tables, or the first rule that one breaks.
//!
//! System V ABI, "ELF Header", "Program Header", "Section Header", "Symbol Table", "String Table"
//! and "Relocation"; RISC-V ELF psABI, "File Header".
//!
//! The rules are looked at in this order, each for all records before the next one. The first that
//! is broken is answered with a place in the file.
//!
//! - `Short`, at the file's length: it has fewer than 64 bytes.
//! - `Magic`, at 0: the first bytes are not 7F 45 4C 46.
//! - `Class`, at 4: it is not of 64 bits.
//! - `Order`, at 5: it has not the lowest byte first.
//! - `Kind`, at 16: e_type is not that of the kind asked for.
//! - `Machine`, at 18: e_machine is not that of RISC-V.
//! - `Flags`, at 48: e_flags tells of compressed code or of half of the registers. The ABI of
//!   floats and total store order are passed over.
//! - `Table`, at 54: there are program headers, and e_phentsize is not 56.
//! - `Table`, at 32: the program headers pass the file's end. Where there are none, e_phoff may be
//!   any.
//! - `Table`, at 58: there are section headers, and e_shentsize is not 64; or there are none, and
//!   e_shoff is not 0.
//! - `Table`, at 40: the section headers pass the file's end.
//! - `Range`, at the first such program header: a PT_LOAD whose part of the file passes its end, is
//!   longer than the memory for it, or whose memory passes 2^64.
//! - `Range`, at the first such section header: a section other than NULL and NOBITS passes the
//!   file's end.
//! - `Strings`, at 62: there are sections, e_shstrndx is not 0, and that section is no STRTAB.
//! - `Table`, at the first such section header: a SYMTAB behind another one, with sh_entsize other
//!   than 24 or a size that is no multiple of it, or whose link is no STRTAB.
//! - `Strings`, at the first such symbol: its name has no zero byte in the string table.
//! - `Table`, at the first such symbol: st_shndx is SHN_XINDEX, or is below SHN_LORESERVE and not
//!   the number of a section.
//! - `Table`, of a relocatable file alone, section by section: at the section's header, a REL
//!   section; a RELA section with sh_entsize other than 24 or a size that is no multiple of it,
//!   whose link is no SYMTAB or whose info is not the number of a section; then at its first such
//!   entry, one whose symbol is not there.
//!
//! The names of sections, and the relocations of an executable file, are not looked at, nor those
//! of sections of other types that have some.
#![tactic(auto)]

pub mod constants;
mod elf;
mod fault;
mod fields;
mod header;
mod names;
mod reading;
mod records;
mod relas;
mod rules;
mod symbols;
mod tables;

pub use elf::{Elf, Kind};
pub use fault::ElfFault;
pub use records::{Rela, RelaGroup, Section, Segment, Span, Symbol};
