//! What file is wanted.
ghost use Rattle.std.specs.Prelude.{◌<◌, ◌^◌, IfOk, vec_len};

use crate::BuilderFault;
use crate::writing::{apply, write_file};
use elf_read::constants::{EM_RISCV, ET_EXEC, PF_R, PF_W, PF_X, PT_LOAD};
use std::alloc::Global;
use wf_outside::PAGE_SIZE;

/// The address of the text of a plain image, and its entry.
const PLAIN_TEXT: u64 = 0x1_0000;

/// The fields of the file's header that the tables don't tell.
#[derive(Clone, Copy, Debug, PartialEq, Eq)]
pub struct WantedHeader {
    pub e_type: u16,
    pub e_machine: u16,
    pub e_entry: u64,
    pub e_flags: u32,
}

/// A segment: its type, its flags, its address, which is the physical one too, the bytes that stand
/// in the file, how many bytes it takes in memory, and its alignment. Without an alignment, 0 or 1,
/// its bytes stand right behind those before.
#[derive(Clone, Copy, Debug)]
pub struct WantedSegment<'a> {
    pub p_type: u32,
    pub p_flags: u32,
    pub p_vaddr: u64,
    pub bytes: &'a [u8],
    pub p_memsz: u64,
    pub p_align: u64,
}

/// A symbol. Where its section is that of a segment, `st_shndx` is the segment's number and one
/// more.
#[derive(Clone, Copy, Debug)]
pub struct WantedSymbol<'a> {
    pub name: &'a [u8],
    pub st_info: u8,
    pub st_shndx: u16,
    pub st_value: u64,
    pub st_size: u64,
}

// A segment, with its bytes.
#[derive(Drop)]
pub struct KeptSegment {
    pub p_type: u32,
    pub p_flags: u32,
    pub p_vaddr: u64,
    pub bytes: Vec<u8>,
    pub p_memsz: u64,
    pub p_align: u64,
}

// A symbol, whose name stands at a place of the names.
#[derive(Clone, Copy)]
pub struct KeptSymbol {
    pub st_name: u32,
    pub st_info: u8,
    pub st_shndx: u16,
    pub st_value: u64,
    pub st_size: u64,
}

// Bytes that are put over those of the file.
#[derive(Drop)]
pub struct Change {
    pub at: u64,
    pub bytes: Vec<u8>,
}

/// What file is wanted: an executable for RISC-V without flags, whose entry is 0x10000, unless
/// `header` says otherwise.
#[derive(Drop)]
pub struct ElfBuilder {
    pub header: WantedHeader,
    alloc: Global,
    segments: Vec<KeptSegment>,
    symbols: Vec<KeptSymbol>,
    names: Vec<u8>,
    has_sections: bool,
    changes: Vec<Change>,
}

impl ElfBuilder {
    /// A file with a header alone.
    pub fn new(alloc: Global) -> ElfBuilder {
        ElfBuilder {
            header: WantedHeader {
                e_type: ET_EXEC,
                e_machine: EM_RISCV,
                e_entry: PLAIN_TEXT,
                e_flags: 0,
            },
            alloc,
            segments: Vec::new(alloc),
            symbols: Vec::new(alloc),
            names: Vec::new(alloc),
            has_sections: false,
            changes: Vec::new(alloc),
        }
    }

    /// A plain image: one segment of text, with these words at 0x10000 and at place 4096 of the
    /// file.
    pub fn plain(alloc: Global, words: &[u32]) -> Result<ElfBuilder, BuilderFault> {
        let mut builder = ElfBuilder::new(alloc);
        builder.text(PLAIN_TEXT, words)?;
        Ok(builder)
    }

    /// One more segment, behind those so far.
    pub fn segment(&mut self, segment: &WantedSegment) -> Result<(), BuilderFault> {
        let kept = KeptSegment {
            p_type: segment.p_type,
            p_flags: segment.p_flags,
            p_vaddr: segment.p_vaddr,
            bytes: segment.bytes.to_vec(self.alloc)?,
            p_memsz: segment.p_memsz,
            p_align: segment.p_align,
        };
        Ok(self.segments.push(kept)?)
    }

    /// A segment that is loaded, with as much memory as it has bytes, or with more, and with the
    /// alignment of pages.
    pub fn load(
        &mut self,
        p_flags: u32,
        p_vaddr: u64,
        bytes: &[u8],
        p_memsz: u64,
    ) -> Result<(), BuilderFault> {
        self.segment(&WantedSegment {
            p_type: PT_LOAD,
            p_flags,
            p_vaddr,
            bytes,
            p_memsz: p_memsz.max(bytes.len() as u64),
            p_align: PAGE_SIZE,
        })
    }

    /// A segment that may be read and run, with these words of 32 bits.
    pub fn text(&mut self, p_vaddr: u64, words: &[u32]) -> Result<(), BuilderFault> {
        let mut bytes = Vec::new(self.alloc);
        for word in words {
            bytes.extend_from_slice(&word.to_le_bytes())?;
        }
        self.load(PF_R | PF_X, p_vaddr, &bytes, 0)
    }

    /// A segment that may be read and written, with these bytes and so many bytes of memory, or as
    /// many as it has.
    pub fn data(&mut self, p_vaddr: u64, bytes: &[u8], p_memsz: u64) -> Result<(), BuilderFault> {
        self.load(PF_R | PF_W, p_vaddr, bytes, p_memsz)
    }

    /// A segment that may only be read, with these bytes.
    pub fn read_only(&mut self, p_vaddr: u64, bytes: &[u8]) -> Result<(), BuilderFault> {
        self.load(PF_R, p_vaddr, bytes, 0)
    }

    /// Asks for sections: none; that of each segment, in their order; the symbol table; and the
    /// string table of its names, which is that of sections' names too. Their own names are empty.
    pub fn sections(&mut self) {
        self.has_sections = true;
    }

    /// One more symbol, behind those so far; the first is symbol 1, behind the one that stands for
    /// none. It asks for sections.
    pub fn symbol(&mut self, symbol: &WantedSymbol) -> Result<(), BuilderFault> {
        self.has_sections = true;
        let st_name = self.name(symbol.name)?;
        Ok(
            self.symbols.push(KeptSymbol {
                st_name,
                st_info: symbol.st_info,
                st_shndx: symbol.st_shndx,
                st_value: symbol.st_value,
                st_size: symbol.st_size,
            })?,
        )
    }

    // The place of a name in the string table, which begins with a zero byte.
    fn name(&mut self, name: &[u8]) -> Result<u32, BuilderFault> {
        if name.is_empty() {
            return Ok(0);
        }
        let Ok(behind) = u32::try_from(self.names.len()) else {
            return Err(BuilderFault::TooLong);
        };
        let Some(place) = behind.checked_add(1) else {
            return Err(BuilderFault::TooLong);
        };
        self.names.extend_from_slice(name)?;
        self.names.push(0)?;
        Ok(place)
    }

    /// Puts these bytes over those at a place of the file, once all else is laid out. Changes come
    /// one after another.
    pub fn change(&mut self, at: u64, bytes: &[u8]) -> Result<(), BuilderFault> {
        Ok(
            self.changes.push(Change {
                at,
                bytes: bytes.to_vec(self.alloc)?,
            })?,
        )
    }

    /// The file. The builder stays as it is, so that more can be added and another file built.
    pub fn build(&self) -> Result<Vec<u8>, BuilderFault>
        ensures { IfOk result (λ bytes. vec_len bytes < 2 ^ 32) }
    {
        let tables = self.has_sections.then_some(self.names.as_slice());
        let mut bytes = write_file(
            self.alloc,
            &self.header,
            &self.segments,
            &self.symbols,
            tables,
        )?;
        for change in &self.changes {
            apply(&mut bytes, change)?;
        }
        Ok(bytes)
    }
}
