//! The order of symbols and relocations.
ghost use Rattle.std.specs.Prelude.{◌≡◌, ◌<◌, ◌≤◌, ◌↔◌, ◌&&◌, ◌==◌, length, not, IsTrue};
ghost use Rattle.std.specs.List.{list_all};
ghost use Rattle.elf_write.specs.Parts.{globals, locals, relas_for, undefined, AreBySection, AreInOrder, AreLinked};

use crate::{ModRela, ModSymbol};

// How many symbols are local.
pub fn locals(symbols: &[ModSymbol]) -> usize
    ensures value { result ≡ length (locals symbols.now) }
    ensures few { result ≤ length symbols.now }
{
    symbols.iter().filter(|s| !s.global).count()
}

// How many symbols other files define.
pub fn undefined(symbols: &[ModSymbol]) -> usize
    ensures value { result ≡ length (undefined symbols.now) }
    ensures few { result ≤ length symbols.now }
{
    symbols
        .iter()
        .filter(|s| s.global && s.section == 0)
        .count()
}

// Each of the symbols is local.
fn are_local(symbols: &[ModSymbol]) -> bool
    ensures { result ≡ list_all (λ s. not s.global) symbols.now }
{
    symbols.iter().all(|s| !s.global)
}

// Other files see each of the symbols.
fn are_global(symbols: &[ModSymbol]) -> bool
    ensures { result ≡ list_all (λ s. s.global && not (s.section == 0)) symbols.now }
{
    symbols.iter().all(|s| s.global && s.section != 0)
}

// Other files define each of the symbols.
fn are_undefined(symbols: &[ModSymbol]) -> bool
    ensures { result ≡ list_all (λ s. s.global && s.section == 0) symbols.now }
{
    symbols.iter().all(|s| s.global && s.section == 0)
}

// The local symbols stand first, and those that other files define last.
pub fn are_in_order(symbols: &[ModSymbol]) -> bool
    ensures { IsTrue result ↔ AreInOrder symbols.now }
{
    let (first, rest) = symbols.split_at(locals(symbols));
    let (middle, last) = rest.split_at(rest.len() - undefined(rest));
    are_local(first) && are_global(middle) && are_undefined(last)
}

// How many relocations are of a section.
pub fn relas_for(section: u8, relas: &[ModRela]) -> usize
    ensures value { result ≡ length (relas_for section relas.now) }
    ensures few { result ≤ length relas.now }
{
    relas.iter().filter(|r| r.section == section).count()
}

// Each of the relocations is of a section.
fn are_for(section: u8, relas: &[ModRela]) -> bool
    ensures { result ≡ list_all (λ r. r.section == section) relas.now }
{
    relas.iter().all(|r| r.section == section)
}

// The relocations are of sections 1 to 3, and stand in that order.
pub fn are_by_section(relas: &[ModRela]) -> bool
    ensures { IsTrue result ↔ AreBySection relas.now }
{
    let (first, rest) = relas.split_at(relas_for(1, relas));
    let (middle, last) = rest.split_at(relas_for(2, rest));
    are_for(1, first) && are_for(2, middle) && are_for(3, last)
}

// The symbol of each relocation is one of so many.
pub fn are_linked(symbols: usize, relas: &[ModRela]) -> bool
    ensures { IsTrue result ↔ AreLinked symbols relas.now }
{
    relas.iter().all(|r| (r.symbol as usize) < symbols)
}
