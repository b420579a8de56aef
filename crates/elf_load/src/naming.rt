//! The names of an image.
ghost use Rattle.std.specs.Prelude.{◌≡◌, IfOk, map, length};
ghost use Rattle.std.specs.List.{filter};
ghost use Rattle.elf_read.specs.Elf.{IsNamed};
ghost use Rattle.elf_load.specs.Loaded.{is_defined, name_of};

use elf_read::constants::{SHN_COMMON, SHN_UNDEF, STB_LOCAL};
use elf_read::{Elf, Symbol};
use std::alloc::Global;
use wf_outside::{Memory, Name, Text};

// The symbol has a name, and is in a section of the file or stands for a number.
fn is_defined(symbol: &Symbol) -> bool
    ensures { result ≡ is_defined symbol.now }
{
    0 < symbol.st_name.len && symbol.st_shndx != SHN_UNDEF && symbol.st_shndx != SHN_COMMON
}

// The name of a symbol.
fn name_of(alloc: Global, elf: &Elf, symbol: &Symbol) -> Result<Name, Memory>
    requires { IsNamed (length elf.now.bytes) symbol.now }
    ensures { IfOk result (λ name. name ≡ name_of elf.now.bytes symbol.now) }
{
    Ok(Name {
        name: Text::of(alloc, elf.bytes(symbol.st_name))?,
        addr: symbol.st_value,
        size: symbol.st_size,
        global: symbol.st_info / 16 != STB_LOCAL,
    })
}

/// The names of the symbols that are defined, in the order of the symbol table.
pub fn names(alloc: Global, elf: &Elf) -> Result<Vec<Name>, Memory>
    ensures { IfOk result
        (λ names. names.items ≡ map (name_of elf.now.bytes) (filter is_defined elf.now.symbols)) }
{
    let mut names = Vec::new(alloc);
    for symbol in elf.symbols() {
        if is_defined(symbol) {
            names.push(name_of(alloc, elf, symbol)?)?;
        }
    }
    Ok(names)
}
