//! The symbols.
ghost use Rattle.std.specs.Prelude.{◌≡◌, ◌≤◌, ◌<◌, ◌+◌, ◌*◌, ◌^◌, length, IfOk, find};
ghost use Rattle.std.specs.Option.{option_copied};
ghost use Rattle.elf_read.specs.Names.{zeros_from};
ghost use Rattle.elf_read.specs.Records.{is_symtab, symbol_table, part, name_at, symbol_at, symbols_of};

use crate::constants::{SHT_SYMTAB, SYMENTSIZE};
use crate::fields::{u16_at, u32_at, u64_at};
use crate::names::{name_len, zeros_of};
use crate::{Section, Span, Symbol};
use std::alloc::{AllocError, Global};

// Where the entries of the symbol table begin, how many there are, and where their names stand.
#[derive(Clone, Copy)]
pub struct SymbolTable {
    pub at: u64,
    pub count: u64,
    pub names: Span,
}

// The first section that is a symbol table.
fn symtab_of(sections: &[Section]) -> Option<&Section>
    ensures { option_copied result ≡ find is_symtab sections.now }
{
    sections.iter().find(|s| s.sh_type == SHT_SYMTAB)
}

// The symbol table of a file with these sections: an empty one where there is none.
#[tactic(auto, unfolding(crate::specs::Records::symbol_table))]
pub fn symbol_table(sections: &[Section]) -> SymbolTable
    ensures { result ≡ symbol_table sections.now }
{
    let empty = SymbolTable {
        at: 0,
        count: 0,
        names: Span { at: 0, len: 0 },
    };
    let Some(symtab) = symtab_of(sections) else {
        return empty;
    };
    let Some(strtab) = sections.get(symtab.sh_link as usize) else {
        return empty;
    };
    SymbolTable {
        at: symtab.sh_offset,
        count: symtab.sh_size / SYMENTSIZE as u64,
        names: Span {
            at: strtab.sh_offset,
            len: strtab.sh_size,
        },
    }
}

// The bytes of a part of the file.
fn part(bytes: &[u8], span: Span) -> &[u8]
    requires { span.at + span.len ≤ length bytes.now }
    ensures { result.now ≡ part bytes.now span }
{
    &bytes[span.at as usize..(span.at + span.len) as usize]
}

// The name at a place of a string table, by the places of the table's zero bytes.
#[tactic(auto, unfolding(crate::specs::Records::name_at))]
fn name_at(bytes: &[u8], names: Span, zeros: &[u32], at: u32) -> Span
    requires within { names.at + names.len ≤ length bytes.now }
    requires zeros { zeros.now ≡ zeros_from 0 (part bytes.now names) }
    ensures { result ≡ name_at bytes.now names at }
{
    Span {
        at: names.at + u64::from(at),
        len: name_len(part(bytes, names), zeros, at) as u64,
    }
}

// The symbol at a place.
#[tactic(auto, unfolding(crate::specs::Records::symbol_at))]
fn symbol_at(bytes: &[u8], names: Span, zeros: &[u32], at: usize) -> Symbol
    requires room { at + SYMENTSIZE ≤ length bytes.now }
    requires within { names.at + names.len ≤ length bytes.now }
    requires zeros { zeros.now ≡ zeros_from 0 (part bytes.now names) }
    ensures { result ≡ symbol_at bytes.now names at }
{
    Symbol {
        st_name: name_at(bytes, names, zeros, u32_at(bytes, at)),
        st_info: bytes[at + 4],
        st_other: bytes[at + 5],
        st_shndx: u16_at(bytes, at + 6),
        st_value: u64_at(bytes, at + 8),
        st_size: u64_at(bytes, at + 16),
    }
}

// The symbols of a table.
pub fn read_symbols(
    alloc: Global,
    bytes: &[u8],
    table: &SymbolTable,
) -> Result<Vec<Symbol>, AllocError>
    requires few { length bytes.now < 2 ^ 32 }
    requires entries { table.now.at + SYMENTSIZE * table.now.count ≤ length bytes.now }
    requires names { table.now.names.at + table.now.names.len ≤ length bytes.now }
    ensures { IfOk result (λ symbols. symbols.items ≡ symbols_of bytes.now table.now) }
{
    let names = table.names;
    let zeros = zeros_of(alloc, part(bytes, names))?;
    let at = table.at as usize;
    (0..table.count as usize)
        .map(|i| symbol_at(bytes, names, &zeros, at + SYMENTSIZE * i))
        .collect(alloc)
}
