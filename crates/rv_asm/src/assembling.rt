//! What a source means.
ghost use Rattle.std.specs.Prelude.{◌≡◌, ◌<◌, ◌^◌, ◌++◌, IfOk, OnOk, length, map};
ghost use Rattle.elf_write.specs.Parts.{globals, locals};
ghost use Rattle.elf_write.specs.Written.{IsWritable};
ghost use Rattle.rv_asm.specs.Answers.{Answers};
ghost use Rattle.wf_text.specs.Lines.{lines_of};
ghost use Rattle.rv_asm.specs.Assembled.{IsModuleOf, all_symbols, assembled, entry_point, fitting};
ghost use Rattle.rv_asm.specs.Drafts.{AreNarrow, IsNarrow, symbol_names, symbol_value, symbol_values};
ghost use Rattle.rv_asm.specs.Links.{outside_symbol};
ghost use Rattle.rv_asm.specs.Names.{name_values};
ghost use Rattle.rv_asm.specs.Uses.{AreCloseUses};

use crate::first_pass::surveyed;
use crate::links::{links_of, outside_names, relas_of};
use crate::named::Symbol;
use crate::names::pcrel_names;
use crate::second_pass::{Draft, drafted};
use crate::settling::section_number;
use crate::{AsmFault, AsmRule};
use elf_write::{Form, ModSymbol, Module};
use std::alloc::{AllocError, Global};
use wf_outside::{Memory, Text};
use wf_text::split_line;

// The address of `_start`, or else 0x10000.
fn start_point(symbols: &[Symbol<'_>]) -> u64
    requires { AreNarrow (symbol_values symbols.now) }
    ensures { result ≡ entry_point Form.Exec (symbol_values symbols.now) }
{
    for symbol in symbols {
        if symbol.name == b"_start".as_slice() {
            return symbol.address as u64;
        }
    }
    0x10000
}

// The address of `_start`, or else 0x10000; an object has none.
fn entry_point(form: Form, symbols: &[Symbol<'_>]) -> u64
    requires { AreNarrow (symbol_values symbols.now) }
    ensures { result ≡ entry_point form (symbol_values symbols.now) }
{
    match form {
        Form::Exec => start_point(symbols),
        Form::Object => 0,
    }
}

// A symbol of the module.
fn module_symbol(alloc: Global, symbol: &Symbol<'_>) -> Result<ModSymbol, Memory>
    requires { IsNarrow (symbol_value symbol.now) }
    ensures { IfOk result (λ s. s ≡ symbol_value symbol.now) }
{
    Ok(ModSymbol {
        name: Text::of(alloc, symbol.name)?,
        section: section_number(symbol.section),
        value: symbol.address as u64,
        size: symbol.size as u64,
        global: symbol.global,
    })
}

// Adds the local symbols.
fn push_locals(
    alloc: Global,
    out: &mut Vec<ModSymbol>,
    symbols: &[Symbol<'_>],
) -> Result<(), Memory>
    requires { AreNarrow (symbol_values symbols.now) }
    ensures { OnOk result (out.new.items ≡ out.old.items ++ locals (symbol_values symbols.now)) }
{
    for symbol in symbols {
        if !symbol.global {
            out.push(module_symbol(alloc, symbol)?)?;
        }
    }
    Ok(())
}

// Adds the symbols that other files see and this one defines.
fn push_globals(
    alloc: Global,
    out: &mut Vec<ModSymbol>,
    symbols: &[Symbol<'_>],
) -> Result<(), Memory>
    requires { AreNarrow (symbol_values symbols.now) }
    ensures { OnOk result (out.new.items ≡ out.old.items ++ globals (symbol_values symbols.now)) }
{
    for symbol in symbols {
        if symbol.global {
            out.push(module_symbol(alloc, symbol)?)?;
        }
    }
    Ok(())
}

// Adds the symbols that other files define.
fn push_outside(alloc: Global, out: &mut Vec<ModSymbol>, names: &[&[u8]]) -> Result<(), Memory>
    ensures { OnOk result
        (out.new.items ≡ out.old.items ++ map outside_symbol (name_values names.now)) }
{
    for name in names {
        out.push(ModSymbol {
            name: Text::of(alloc, name)?,
            section: 0,
            value: 0,
            size: 0,
            global: true,
        })?;
    }
    Ok(())
}

// The names of symbols.
fn names_of(alloc: Global, symbols: &[ModSymbol]) -> Result<Vec<&[u8]>, AllocError>
    ensures { IfOk result (λ names. name_values names.items ≡ symbol_names symbols.now) }
{
    let mut names = Vec::new(alloc);
    for symbol in symbols {
        names.push(symbol.name.bytes())?;
    }
    Ok(names)
}

// The symbols of a module.
fn all_symbols(
    alloc: Global,
    symbols: &[Symbol<'_>],
    outside: &[&[u8]],
) -> Result<Vec<ModSymbol>, Memory>
    requires { AreNarrow (symbol_values symbols.now) }
    ensures { IfOk result (λ all. all.items
        ≡ all_symbols (symbol_values symbols.now) (name_values outside.now)) }
{
    let mut all = Vec::new(alloc);
    push_locals(alloc, &mut all, symbols)?;
    push_globals(alloc, &mut all, symbols)?;
    push_outside(alloc, &mut all, outside)?;
    Ok(all)
}

// The module of a draft, unless it has 2^32 symbols or more.
#[tactic(auto, unfolding(crate::specs::Assembled::module_of))]
fn module_of(alloc: Global, draft: Draft<'_>) -> Result<Option<Module>, Memory>
    requires narrow { AreNarrow draft.symbols }
    requires close { AreCloseUses draft.uses }
    ensures { IfOk result (IsModuleOf draft.entry) }
{
    let links = links_of(alloc, &draft.labels, draft.uses.entries())?;
    let outside = outside_names(alloc, &draft.labels, &links)?;
    let symbols = all_symbols(alloc, &draft.symbols, &outside)?;
    if symbols.len() >= 1 << 32 {
        return Ok(None);
    }
    let relas = relas_of(alloc, &names_of(alloc, &symbols)?, &links)?;
    Ok(Some(Module {
        form: draft.form,
        entry: entry_point(draft.form, &draft.symbols),
        text: draft.text,
        rodata: draft.rodata,
        rwdata: draft.rwdata,
        bss: draft.bss,
        symbols,
        relas,
    }))
}

// How many lines a source has.
#[tactic(auto, using(crate::proofs::FirstLemmas::none_left))]
fn line_count(source: &[u8]) -> u64
    ensures { result ≡ length (lines_of source.now) }
{
    let mut rest = source;
    let mut count = 0;
    while !rest.is_empty() {
        let (_, behind) = split_line(rest);
        count += 1;
        rest = behind;
    }
    count
}

// The fault of a source whose file would be too long.
fn too_long(source: &[u8]) -> AsmFault
    ensures { result ≡ AsmFault.At (length (lines_of source.now)) AsmRule.Range }
{
    AsmFault::At {
        line: line_count(source),
        rule: AsmRule::Range,
    }
}

// The module, if its file has fewer than 2^32 bytes.
#[tactic(auto, unfolding(crate::specs::Assembled::fitting))]
fn fitting(source: &[u8], module: Module) -> Result<Module, AsmFault>
    ensures { Answers (λ m. m) result (fitting (length (lines_of source.now)) «module») }
{
    if module.length() >= 1 << 32 {
        return Err(too_long(source));
    }
    Ok(module)
}

/// The module of this form that a source means, or its first fault. A source of n bytes with m
/// names takes time in proportion to the bytes that it puts and to n log m.
pub fn assemble(alloc: Global, source: &[u8], form: Form) -> Result<Module, AsmFault>
    ensures value { Answers (λ m. m) result (assembled form source.now) }
    // What it gives has a file.
    ensures writable { IfOk result (λ m. IsWritable m) }
{
    let names = pcrel_names(alloc, form, source)?;
    let survey = surveyed(alloc, form, &names, source)?;
    let draft = drafted(alloc, form, source, survey)?;
    let Some(module) = module_of(alloc, draft)? else {
        return Err(too_long(source));
    };
    fitting(source, module)
}
