//! Files that were read.
ghost use Rattle.std.specs.Prelude.{◌≡◌, ◌≤◌, ◌+◌, ◌<◌, ◌^◌, ◌⊎◌, Err, length, vec_len, slice_range, IfOk, All};
ghost use Rattle.std.specs.Result.{result_err};
ghost use Rattle.elf_read.specs.Elf.{IsElf, FitsFile, LiesInFile, IsNamed, HasHome, segment_place};
ghost use Rattle.elf_read.specs.Relas.{IsRooted};
ghost use Rattle.elf_read.specs.Rules.{first_fault};

use crate::constants::PHENTSIZE;
use crate::reading::{Tables, read_tables};
use crate::{ElfFault, RelaGroup, Section, Segment, Span, Symbol};
use std::alloc::Global;
use std::marker::Model;

/// What a file is asked to be.
///
/// System V ABI, "ELF Header", `e_type`.
#[derive(Clone, Copy, Debug, PartialEq, Eq)]
pub enum Kind {
    /// An executable file, ET_EXEC.
    Exec,
    /// A relocatable file, ET_REL.
    Rel,
}

/// A file that was read: its bytes, and the records in its tables.
#[derive(Drop)]
pub struct Elf {
    kind: Kind,
    bytes: Vec<u8>,
    tables: Tables,
}

impl Model for Elf {
    ghost use Rattle.elf_read.specs.Elf.{ElfValue, IsKept};

    ghost Value = { ElfValue };

    ghost view = { λ e. record {
      kind = e.kind;
      bytes = e.bytes.items;
      entry = e.tables.header.e_entry;
      segments = e.tables.segments.items;
      sections = e.tables.sections.items;
      symbols = e.tables.symbols.items;
      relas = e.tables.relas.items;
    } };

    ghost invariant = { λ e.
        IsKept e.bytes.items e.tables.header e.tables.segments.items e.tables.sections.items
        e.tables.symbols.items e.tables.relas.items };
}

impl Elf {
    /// Reads a file of fewer than 2^32 bytes. A fault is the first rule that is broken, in the
    /// order of `specs/Rules.antt`. The time and the memory are those of the file's size, whatever
    /// numbers stand in it; of a relocatable file those of its relocation sections come to that,
    /// each of which may be as long as the file.
    ///
    /// System V ABI, "ELF Header" to "Relocation"; RISC-V ELF psABI, "File Header".
    pub fn read(alloc: Global, bytes: Vec<u8>, kind: Kind) -> Result<Elf, ElfFault>
        requires { vec_len bytes < 2 ^ 32 }
        // What was read is what stands in the bytes.
        ensures ok { IfOk result (IsElf kind bytes.items) }
        // A rule is answered exactly where it is the first that is broken, and a file exactly where
        // none is, unless memory ran out.
        ensures fault { (result ≡ Err ElfFault.Memory)
            ⊎ (result_err result ≡ first_fault kind bytes.items) }
    {
        let tables = read_tables(alloc, kind, &bytes)?;
        Ok(Elf {
            kind,
            bytes,
            tables,
        })
    }

    /// What the file was asked to be.
    pub fn kind(&self) -> Kind
        ensures { result ≡ self.now.kind }
    {
        self.kind
    }

    /// The address at which the program begins, e_entry.
    pub fn entry(&self) -> u64
        ensures { result ≡ self.now.entry }
    {
        self.tables.header.e_entry
    }

    /// The program headers, in the order of the file.
    pub fn segments(&self) -> &[Segment]
        ensures value { result.now ≡ self.now.segments }
        // The part of the file that a PT_LOAD names lies in the file and is not longer than its
        // memory, and its memory ends at 2^64 or below.
        ensures fit { All (FitsFile (length self.now.bytes)) self.now.segments }
    {
        self.tables.segments.as_slice()
    }

    /// Where in the file the header of a segment stands.
    pub fn segment_place(&self, index: usize) -> u64
        requires { index < length self.now.segments }
        ensures value { result ≡ segment_place self.now.bytes index }
    {
        self.tables.header.e_phoff + PHENTSIZE as u64 * index as u64
    }

    /// The section headers, in the order of the file.
    pub fn sections(&self) -> &[Section]
        ensures value { result.now ≡ self.now.sections }
        // A section lies in the file, unless it is of type NULL or NOBITS.
        ensures lie { All (LiesInFile (length self.now.bytes)) self.now.sections }
        ensures few { length self.now.sections < 2 ^ 32 }
    {
        self.tables.sections.as_slice()
    }

    /// The symbols, in the order of the symbol table; none where the file has no such table.
    pub fn symbols(&self) -> &[Symbol]
        ensures value { result.now ≡ self.now.symbols }
        // The bytes of each name lie in the file.
        ensures named { All (IsNamed (length self.now.bytes)) self.now.symbols }
        // The section of each is there, or its number is SHN_LORESERVE or above.
        ensures homes { All (HasHome (length self.now.sections)) self.now.symbols }
        ensures few { length self.now.symbols < 2 ^ 32 }
    {
        self.tables.symbols.as_slice()
    }

    /// The relocations, one group for each RELA section of a relocatable file, by the number of the
    /// section; none of an executable file, whose relocations are not read.
    ///
    /// System V ABI, "Relocation".
    pub fn relas(&self) -> &[RelaGroup]
        ensures value { result.now ≡ self.now.relas }
        // The section of each group and what it changes are there, and so are its entries' symbols.
        ensures rooted { All (IsRooted (length self.now.sections) (length self.now.symbols))
            self.now.relas }
    {
        self.tables.relas.as_slice()
    }

    /// The bytes of a part of the file.
    pub fn bytes(&self, span: Span) -> &[u8]
        requires { span.at + span.len ≤ length self.now.bytes }
        ensures value { result.now ≡ slice_range self.now.bytes span.at (span.at + span.len) }
        ensures few { length self.now.bytes < 2 ^ 32 }
    {
        &self.bytes[span.at as usize..(span.at + span.len) as usize]
    }
}
