//! Modules.
ghost use Rattle.std.specs.Prelude.{◌≡◌, ◌^◌, ◌-◌, ◌↔◌, min, IsTrue};
ghost use Rattle.elf_write.specs.Layout.{file_length};
ghost use Rattle.elf_write.specs.Written.{FitsForm, IsWritable};

use crate::layout::{layout_for, sizes_of};
use crate::order::{are_by_section, are_in_order, are_linked, undefined};
use crate::parts::{are_symbols, strings_length};
use std::marker::Model;
use wf_outside::Text;

/// What a module is for.
///
/// System V ABI, "ELF Header", `e_type`.
#[derive(Clone, Copy, Debug, PartialEq, Eq)]
pub enum Form {
    /// A file that is executed, ET_EXEC.
    Exec,
    /// A file that is still to be linked, ET_REL.
    Object,
}

/// A symbol: its name; its section, 1 to 4 for `.text`, `.rodata`, `.data` and `.bss`, or 0 where
/// another file defines it; its address or, in an object, its place in its section, and its size in
/// bytes; and whether other files see it.
///
/// System V ABI, "Symbol Table".
#[derive(Drop)]
pub struct ModSymbol {
    pub name: Text,
    pub section: u8,
    pub value: u64,
    pub size: u64,
    pub global: bool,
}

/// A relocation: its section, 1 to 3; where in it its field stands; its type; the place of its
/// symbol among the module's, from 0; and what is added to that symbol's address.
///
/// System V ABI, "Relocation".
#[derive(Clone, Copy, Debug, PartialEq, Eq)]
pub struct ModRela {
    pub section: u8,
    pub offset: u64,
    pub kind: u32,
    pub symbol: u32,
    pub addend: i64,
}

/// Code and data: the address of the first instruction, 0 in an object; the bytes of `.text`,
/// `.rodata` and `.data`; the size of `.bss` in bytes; the symbols, the local ones first and those
/// of other files last; and the relocations, by section.
#[derive(Drop)]
pub struct Module {
    pub form: Form,
    pub entry: u64,
    pub text: Vec<u8>,
    pub rodata: Vec<u8>,
    pub rwdata: Vec<u8>,
    pub bss: u64,
    pub symbols: Vec<ModSymbol>,
    pub relas: Vec<ModRela>,
}

impl Model for Module {
    ghost use Rattle.elf_write.specs.Modules.{ModuleValue};

    ghost Value = { ModuleValue };

    ghost view = { λ m. record {
      form = m.form;
      entry = m.entry;
      text = m.text.items;
      rodata = m.rodata.items;
      rwdata = m.rwdata.items;
      bss = m.bss;
      symbols = m.symbols.items;
      relas = m.relas.items;
    } };
}

// The number, or 2^64 - 1 where it is more.
fn capped(number: u128) -> u64
    ensures { result ≡ min number (2 ^ 64 - 1) }
{
    if number < 1 << 64 {
        number as u64
    } else {
        u64::MAX
    }
}

impl Module {
    /// The length in bytes of the file that holds the module, or 2^64 - 1 where that is more.
    #[tactic(auto, using(crate::proofs::LengthLemmas::length_capped))]
    pub fn length(&self) -> u64
        ensures { result ≡ min (file_length self.now) (2 ^ 64 - 1) }
    {
        let strings = strings_length(&self.symbols);
        capped(layout_for(self.form, &sizes_of(self, strings)).end)
    }

    // Whether the module is of its form.
    fn fits_form(&self) -> bool
        ensures { IsTrue result ↔ FitsForm self.now.form self.now }
    {
        match self.form {
            Form::Exec => self.relas.is_empty() && undefined(&self.symbols) == 0,
            Form::Object => self.entry == 0,
        }
    }

    /// Whether the module has a file: what `write` asks for.
    pub fn is_writable(&self) -> bool
        ensures { IsTrue result ↔ IsWritable self.now }
    {
        are_in_order(&self.symbols)
            && are_symbols(&self.symbols)
            && are_by_section(&self.relas)
            && are_linked(self.symbols.len(), &self.relas)
            && self.fits_form()
            && self.bss <= 1 << 32
            && self.length() < 1 << 32
    }
}
