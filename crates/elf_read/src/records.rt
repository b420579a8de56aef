//! The records of a file, with the names of ELF64. Numbers are as in the file, lowest byte first
//! there.
ghost use Rattle.std.specs.Prelude.{◌≡◌};
ghost use Rattle.elf_read.specs.Relas.{symbol_number, relocation_type};

use std::marker::Model;

/// A part of the file: so many bytes, from a place in bytes from its start.
#[derive(Clone, Copy, Debug, PartialEq, Eq)]
pub struct Span {
    pub at: u64,
    pub len: u64,
}

/// A program header.
///
/// System V ABI, "Program Header".
#[derive(Clone, Copy, Debug, PartialEq, Eq)]
pub struct Segment {
    pub p_type: u32,
    pub p_flags: u32,
    pub p_offset: u64,
    pub p_vaddr: u64,
    pub p_paddr: u64,
    pub p_filesz: u64,
    pub p_memsz: u64,
    pub p_align: u64,
}

/// A section header.
///
/// System V ABI, "Section Header".
#[derive(Clone, Copy, Debug, PartialEq, Eq)]
pub struct Section {
    pub sh_name: u32,
    pub sh_type: u32,
    pub sh_flags: u64,
    pub sh_addr: u64,
    pub sh_offset: u64,
    pub sh_size: u64,
    pub sh_link: u32,
    pub sh_info: u32,
    pub sh_addralign: u64,
    pub sh_entsize: u64,
}

/// An entry of the symbol table. Its name is where the name's bytes stand in the file, without the
/// zero byte behind them.
///
/// System V ABI, "Symbol Table".
#[derive(Clone, Copy, Debug, PartialEq, Eq)]
pub struct Symbol {
    pub st_name: Span,
    pub st_info: u8,
    pub st_other: u8,
    pub st_shndx: u16,
    pub st_value: u64,
    pub st_size: u64,
}

/// An entry of a relocation table with addends.
///
/// System V ABI, "Relocation".
#[derive(Clone, Copy, Debug, PartialEq, Eq)]
pub struct Rela {
    pub r_offset: u64,
    pub r_info: u64,
    pub r_addend: i64,
}

impl Rela {
    /// The number of the symbol that the entry names, 0 for none.
    ///
    /// System V ABI, "Relocation", `ELF64_R_SYM`.
    pub fn symbol(&self) -> u32
        ensures { result ≡ symbol_number self.now }
    {
        (self.r_info / (1 << 32)) as u32
    }

    /// The number of the relocation's type.
    ///
    /// System V ABI, "Relocation", `ELF64_R_TYPE`.
    pub fn kind(&self) -> u32
        ensures { result ≡ relocation_type self.now }
    {
        (self.r_info % (1 << 32)) as u32
    }
}

/// The entries of one relocation section: its number, and that of the section whose bytes they
/// change.
#[derive(Drop)]
pub struct RelaGroup {
    pub section: u32,
    pub target: u32,
    pub relas: Vec<Rela>,
}

impl Model for RelaGroup {
    ghost use Rattle.elf_read.specs.Relas.{RelaGroupValue};

    ghost Value = { RelaGroupValue };

    ghost view = { λ g. record { section = g.section; target = g.target; relas = g.relas.items } };
}
