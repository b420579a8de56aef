//! The names of a patch.
ghost use Rattle.std.specs.Prelude.{◌≡◌, length, unwrap_or, IfOk};
ghost use Rattle.elf_read.specs.Elf.{IsNamed};
ghost use Rattle.elf_link.specs.Links.{place_of};
ghost use Rattle.elf_syms.specs.Names.{FindsAs};
ghost use Rattle.elf_syms.specs.Telling.{told_of};
ghost use Rattle.patch_build.specs.Names.{is_wanted, is_named, address_at, name_at, names_of};

use crate::region::{Region, is_loaded};
use elf_read::constants::{SHN_ABS, SHN_UNDEF, STB_LOCAL};
use elf_read::{Elf, Section, Symbol};
use elf_syms::Names;
use std::alloc::Global;
use wf_outside::{Memory, Name, Text};

/// Which names are wanted: all of sections that are loaded, or those of functions alone, which are
/// in sections of text.
#[derive(Clone, Copy)]
pub enum Wanted {
    Every,
    Functions,
}

// A section has wanted names.
fn is_wanted(wanted: Wanted, section: &Section) -> bool
    ensures { result ≡ is_wanted wanted section.now }
{
    match wanted {
        Wanted::Every => is_loaded(section),
        Wanted::Functions => Region::Text.has(section),
    }
}

// A symbol has a wanted name.
fn is_named(wanted: Wanted, sections: &[Section], symbol: &Symbol) -> bool
    ensures { result ≡ is_named wanted sections.now symbol.now }
{
    if symbol.st_name.len == 0 || symbol.st_shndx == SHN_UNDEF || symbol.st_shndx == SHN_ABS {
        return false;
    }
    match sections.get(usize::from(symbol.st_shndx)) {
        None => false,
        Some(section) => is_wanted(wanted, section),
    }
}

// The address of the section with this number, 0 where it has none.
fn place_at(places: &[Option<u64>], section: u16) -> u64
    ensures { result ≡ unwrap_or (place_of places.now section) 0 }
{
    match places.get(usize::from(section)) {
        None => 0,
        Some(place) => place.unwrap_or(0),
    }
}

// The address of the symbol with this number.
fn address_at(places: &[Option<u64>], number: usize, symbol: &Symbol) -> u64
    ensures { result ≡ address_at places.now number symbol.now }
{
    if number == 0 {
        return 0;
    }
    place_at(places, symbol.st_shndx).wrapping_add(symbol.st_value)
}

// The name of the symbol with this number.
fn name_at(
    alloc: Global,
    object: &Elf,
    places: &[Option<u64>],
    number: usize,
    symbol: &Symbol,
) -> Result<Name, Memory>
    requires { IsNamed (length object.now.bytes) symbol.now }
    ensures { IfOk result
        (λ name. name ≡ name_at object.now.bytes places.now number symbol.now) }
{
    Ok(Name {
        name: Text::of(alloc, object.bytes(symbol.st_name))?,
        addr: address_at(places, number, symbol),
        size: symbol.st_size,
        global: symbol.st_info / 16 != STB_LOCAL,
    })
}

/// The wanted names of an object whose sections stand at these places, in the order of its symbol
/// table.
pub fn names_of(
    alloc: Global,
    wanted: Wanted,
    object: &Elf,
    places: &[Option<u64>],
) -> Result<Vec<Name>, Memory>
    ensures { IfOk result (λ names. names.items ≡ names_of wanted object.now places.now) }
{
    let mut names = Vec::new(alloc);
    for (number, symbol) in object.symbols().iter().enumerate() {
        if is_named(wanted, object.sections(), symbol) {
            names.push(name_at(alloc, object, places, number, symbol)?)?;
        }
    }
    Ok(names)
}

/// The functions of an object whose sections stand at these places, by name.
pub fn functions_of(alloc: Global, object: &Elf, places: &[Option<u64>]) -> Result<Names, Memory>
    ensures { IfOk result
        (λ names. FindsAs names (told_of (names_of Wanted.Functions object.now places.now))) }
{
    let mut functions = Names::none(alloc);
    functions.add(names_of(alloc, Wanted::Functions, object, places)?)?;
    Ok(functions)
}
