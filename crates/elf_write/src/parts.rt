//! The names, the symbols and the relocations in a file.
ghost use Rattle.std.specs.Prelude.{◌≡◌, ◌<◌, ◌+◌, ◌-◌, ◌^◌, ◌++◌, ◌↔◌, length, min, All, IsTrue, OnOk, IfOk};
ghost use Rattle.std.specs.List.{flat_map};
ghost use Rattle.elf_write.specs.Parts.{info_of, name_bytes, rela_bytes, strings, symbol_bytes, symbol_table, symbols_from, AreLinked, IsSymbol, IsUndefined};

use crate::numbers::{put_halves, put_words, put_xwords};
use crate::{ModRela, ModSymbol};
use std::alloc::Global;
use wf_outside::Memory;

// .strtab: a zero byte, and the name of each symbol with its zero byte.
pub fn strings(alloc: Global, symbols: &[ModSymbol]) -> Result<Vec<u8>, Memory>
    ensures { IfOk result (λ bytes. bytes.items ≡ strings symbols.now) }
{
    let mut out = vec![in alloc; 0]?;
    for symbol in symbols {
        out.extend_from_slice(symbol.name.bytes())?;
        out.push(0)?;
    }
    Ok(out)
}

// The length of .strtab, or 2^64 - 1 where that is more.
pub fn strings_length(symbols: &[ModSymbol]) -> u64
    ensures { result ≡ min (length (strings symbols.now)) (2 ^ 64 - 1) }
{
    let mut total: u64 = 1;
    for symbol in symbols {
        let len = symbol.name.bytes().len() as u64;
        total = total.saturating_add(len).saturating_add(1);
    }
    total
}

// st_info of a symbol.
fn info_of(global: bool) -> u8
    ensures { result ≡ info_of global }
{
    if global { 0x10 } else { 0x00 }
}

// Adds the entry of a symbol whose name stands at this place in .strtab.
#[tactic(auto, unfolding(crate::specs::Parts::symbol_bytes))]
fn put_symbol(out: &mut Vec<u8>, name: u32, symbol: &ModSymbol) -> Result<(), Memory>
    ensures { OnOk result (out.new.items ≡ out.old.items ++ symbol_bytes name symbol.now) }
{
    put_words(out, &[name])?;
    out.extend_from_slice(&[info_of(symbol.global), 0])?;
    put_halves(out, &[u16::from(symbol.section)])?;
    put_xwords(out, &[symbol.value, symbol.size])
}

// .symtab: symbol 0, and the symbols.
#[tactic(auto, using(crate::proofs::PartLemmas::symbol_steps))]
pub fn symbol_table(alloc: Global, symbols: &[ModSymbol]) -> Result<Vec<u8>, Memory>
    requires { length (strings symbols.now) < 2 ^ 32 }
    ensures { IfOk result (λ bytes. bytes.items ≡ symbol_table symbols.now) }
{
    let mut out = vec![in alloc; 0; 24]?;
    let mut name = 1;
    for symbol in symbols {
        put_symbol(&mut out, name, symbol)?;
        name += symbol.name.bytes().len() as u32 + 1;
    }
    Ok(out)
}

// Adds a relocation.
#[tactic(auto, unfolding(crate::specs::Parts::rela_bytes))]
fn put_rela(out: &mut Vec<u8>, rela: &ModRela) -> Result<(), Memory>
    requires { rela.now.symbol + 1 < 2 ^ 32 }
    ensures { OnOk result (out.new.items ≡ out.old.items ++ rela_bytes rela.now) }
{
    let info = (u64::from(rela.symbol) + 1) * (1 << 32) + u64::from(rela.kind);
    put_xwords(out, &[rela.offset, info, rela.addend.cast_unsigned()])
}

// The relocations of the sections, one after another.
pub fn rela_table(alloc: Global, relas: &[ModRela]) -> Result<Vec<u8>, Memory>
    requires { AreLinked (2 ^ 32 - 1) relas.now }
    ensures { IfOk result (λ bytes. bytes.items ≡ flat_map rela_bytes relas.now) }
{
    let mut out = Vec::new(alloc);
    for rela in relas {
        put_rela(&mut out, rela)?;
    }
    Ok(out)
}

// The symbol is global, and has no value and no size.
fn is_undefined(symbol: &ModSymbol) -> bool
    ensures { IsTrue result ↔ IsUndefined symbol.now }
{
    symbol.global && symbol.value == 0 && symbol.size == 0
}

// The symbol stands in a section that is there or in another file, and its name has no zero byte.
fn is_symbol(symbol: &ModSymbol) -> bool
    ensures { IsTrue result ↔ IsSymbol symbol.now }
{
    symbol.section <= 4
        && (symbol.section != 0 || is_undefined(symbol))
        && !symbol.name.bytes().contains(&0)
}

// Each symbol stands in a section that is there or in another file, and no name has a zero byte.
pub fn are_symbols(symbols: &[ModSymbol]) -> bool
    ensures { IsTrue result ↔ All IsSymbol symbols.now }
{
    for symbol in symbols {
        if !is_symbol(symbol) {
            return false;
        }
    }
    true
}
