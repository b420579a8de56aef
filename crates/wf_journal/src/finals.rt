//! The final lines of a state.
ghost use Rattle.std.specs.Prelude.{◌≡◌, ◌<◌, ◌+◌, ◌*◌, ◌^◌, ◌++◌, ◌∷◌, [], OnOk, IfOk, length, map, codes};
ghost use Rattle.std.specs.List.{flat_map};
ghost use Rattle.wf_text.specs.Numbers.{hex};
ghost use Rattle.wf_journal.specs.Entries.{spaced};
ghost use Rattle.wf_journal.specs.Finals.{life_text, hart_line, register_text, registers_line, hart_lines, harts_from, parent_text, live_text, gen_line, holder_text, stage_text, page_line, word_line, word_lines, page_lines, final_lines};

use crate::fields::{push_right, spaced_hex};
use std::alloc::Global;
use wf_flat::{Flat, FlatHart, FlatPage, Gen, Life, Stage};
use wf_outside::{Memory, Text};
use wf_text::{push_decimal, push_hex};

// Whether a hart runs.
#[tactic(auto, unfolding(crate::specs::Finals::life_text))]
fn push_life(out: &mut Vec<u8>, life: Life) -> Result<(), Memory>
    ensures { OnOk result (out.new.items ≡ out.old.items ++ life_text life) }
{
    match life {
        Life::Running => out.extend_from_slice(b"running")?,
        Life::Exited { code } => {
            out.extend_from_slice(b"exit ")?;
            push_decimal(out, code)?;
        }
        Life::Trapped { cause, value } => {
            out.extend_from_slice(b"trap ")?;
            push_decimal(out, u64::from(cause))?;
            spaced_hex(out, value)?;
        }
    }
    Ok(())
}

// The first line of a hart.
#[tactic(auto, unfolding(crate::specs::Finals::hart_line))]
fn hart_line(alloc: Global, number: usize, hart: &FlatHart) -> Result<Text, Memory>
    ensures { IfOk result (λ text. text ≡ hart_line number hart.now) }
{
    let mut out = Vec::new(alloc);
    let arch = hart.arch;
    out.extend_from_slice(b"= hart ")?;
    push_decimal(&mut out, number as u64)?;
    out.extend_from_slice(b" gen ")?;
    push_decimal(&mut out, u64::from(hart.generation))?;
    out.extend_from_slice(b" pc ")?;
    push_hex(&mut out, arch.pc)?;
    out.push(b' ')?;
    push_life(&mut out, hart.life)?;
    Ok(Text::from(out))
}

// Registers, each after a space.
fn push_registers(out: &mut Vec<u8>, registers: &[u64]) -> Result<(), Memory>
    ensures { OnOk result (out.new.items ≡ out.old.items ++ flat_map register_text registers.now) }
{
    for register in registers {
        spaced_hex(out, *register)?;
    }
    Ok(())
}

// The line of a hart's registers.
#[tactic(auto, unfolding(crate::specs::Finals::registers_line))]
fn registers_line(alloc: Global, number: usize, hart: &FlatHart) -> Result<Text, Memory>
    ensures { IfOk result (λ text. text ≡ registers_line number hart.now) }
{
    let mut out = Vec::new(alloc);
    let arch = hart.arch;
    out.extend_from_slice(b"= regs ")?;
    push_decimal(&mut out, number as u64)?;
    push_registers(&mut out, &arch.x[1..])?;
    Ok(Text::from(out))
}

// The lines of a hart.
fn append_hart(
    alloc: Global,
    lines: &mut Vec<Text>,
    number: usize,
    hart: &FlatHart,
) -> Result<(), Memory>
    ensures { OnOk result (lines.new.items ≡ lines.old.items ++ hart_lines number hart.now) }
{
    lines.push(hart_line(alloc, number, hart)?)?;
    lines.push(registers_line(alloc, number, hart)?)?;
    Ok(())
}

// The lines of the harts.
#[tactic(auto, using(crate::proofs::LineLemmas::hart_steps))]
fn append_harts(alloc: Global, lines: &mut Vec<Text>, harts: &[FlatHart]) -> Result<(), Memory>
    ensures { OnOk result (lines.new.items ≡ lines.old.items ++ harts_from 0 harts.now) }
{
    for (number, hart) in harts.iter().enumerate() {
        append_hart(alloc, lines, number, hart)?;
    }
    Ok(())
}

// The number of a parent, or `-`.
fn push_parent(out: &mut Vec<u8>, parent: Option<u32>) -> Result<(), Memory>
    ensures { OnOk result (out.new.items ≡ out.old.items ++ parent_text parent) }
{
    match parent {
        None => out.push(b'-')?,
        Some(parent) => push_decimal(out, u64::from(parent))?,
    }
    Ok(())
}

// Whether a generation lives.
fn push_live(out: &mut Vec<u8>, live: bool) -> Result<(), Memory>
    ensures { OnOk result (out.new.items ≡ out.old.items ++ live_text live) }
{
    if live {
        out.extend_from_slice(b"live")?;
    } else {
        out.extend_from_slice(b"dead")?;
    }
    Ok(())
}

// The line of a generation.
#[tactic(auto, unfolding(crate::specs::Finals::gen_line))]
fn gen_line(alloc: Global, generation: &Gen) -> Result<Text, Memory>
    ensures { IfOk result (λ text. text ≡ gen_line generation.now) }
{
    let mut out = Vec::new(alloc);
    out.extend_from_slice(b"= gen ")?;
    push_decimal(&mut out, u64::from(generation.number))?;
    out.extend_from_slice(b" parent ")?;
    push_parent(&mut out, generation.parent)?;
    out.push(b' ')?;
    push_live(&mut out, generation.live)?;
    out.extend_from_slice(b" patches ")?;
    push_decimal(&mut out, u64::from(generation.patches))?;
    Ok(Text::from(out))
}

// The lines of the generations.
fn append_gens(alloc: Global, lines: &mut Vec<Text>, gens: &[Gen]) -> Result<(), Memory>
    ensures { OnOk result (lines.new.items ≡ lines.old.items ++ map gen_line gens.now) }
{
    for generation in gens {
        lines.push(gen_line(alloc, generation)?)?;
    }
    Ok(())
}

// The holder of a page that is leaving, or `-`.
fn push_holder(out: &mut Vec<u8>, holder: Option<u8>) -> Result<(), Memory>
    ensures { OnOk result (out.new.items ≡ out.old.items ++ holder_text holder) }
{
    match holder {
        None => out.push(b'-')?,
        Some(hart) => {
            out.push(b'h')?;
            push_decimal(out, u64::from(hart))?;
        }
    }
    Ok(())
}

// How far an unmap has come.
#[tactic(auto, unfolding(crate::specs::Finals::stage_text))]
fn push_stage(out: &mut Vec<u8>, stage: Stage, holder: Option<u8>) -> Result<(), Memory>
    ensures { OnOk result (out.new.items ≡ out.old.items ++ stage_text stage holder) }
{
    match stage {
        Stage::Here => out.extend_from_slice(b"here")?,
        Stage::Going => out.extend_from_slice(b"going")?,
        Stage::Ending => {
            out.extend_from_slice(b"ending ")?;
            push_holder(out, holder)?;
        }
    }
    Ok(())
}

// The line of a page.
#[tactic(auto, unfolding(crate::specs::Finals::page_line))]
fn page_line(alloc: Global, page: &FlatPage) -> Result<Text, Memory>
    ensures { IfOk result (λ text. text ≡ page_line page.now) }
{
    let mut out = Vec::new(alloc);
    out.extend_from_slice(b"= page ")?;
    push_hex(&mut out, u64::from(page.number))?;
    out.push(b' ')?;
    push_right(&mut out, page.write)?;
    out.push(b' ')?;
    push_stage(&mut out, page.stage, page.holder)?;
    out.extend_from_slice(b" writes ")?;
    push_decimal(&mut out, page.writes)?;
    Ok(Text::from(out))
}

// The text of a word at an address.
fn word_text(alloc: Global, va: u64, word: u64) -> Result<Text, Memory>
    ensures { IfOk result (λ text. text ≡ codes "= word " ++ hex va ++ spaced (hex word)) }
{
    let mut out = Vec::new(alloc);
    out.extend_from_slice(b"= word ")?;
    push_hex(&mut out, va)?;
    spaced_hex(&mut out, word)?;
    Ok(Text::from(out))
}

// The line of a word, unless it is 0.
#[tactic(auto, unfolding(crate::specs::Finals::word_line))]
fn append_word(alloc: Global, lines: &mut Vec<Text>, va: u64, word: u64) -> Result<(), Memory>
    ensures { OnOk result (lines.new.items ≡ lines.old.items ++ word_line va word) }
{
    if word != 0 {
        lines.push(word_text(alloc, va, word)?)?;
    }
    Ok(())
}

// The lines of the words from an address on.
fn append_words(alloc: Global, lines: &mut Vec<Text>, va: u64, words: &[u64]) -> Result<(), Memory>
    requires { va + 8 * length words.now < 2 ^ 64 }
    ensures { OnOk result (lines.new.items ≡ lines.old.items ++ word_lines va words.now) }
{
    for (place, word) in words.iter().enumerate() {
        append_word(alloc, lines, va + 8 * place as u64, *word)?;
    }
    Ok(())
}

// The line of a page and, where it was written, its words.
fn append_page(alloc: Global, lines: &mut Vec<Text>, page: &FlatPage) -> Result<(), Memory>
    ensures { OnOk result (lines.new.items ≡ lines.old.items ++ page_lines page.now) }
{
    lines.push(page_line(alloc, page)?)?;
    if page.writes != 0 {
        append_words(alloc, lines, page.number as u64 * 4096, &page.words)?;
    }
    Ok(())
}

// The lines of the pages.
fn append_pages(alloc: Global, lines: &mut Vec<Text>, pages: &[FlatPage]) -> Result<(), Memory>
    ensures { OnOk result (lines.new.items ≡ lines.old.items ++ flat_map page_lines pages.now) }
{
    for page in pages {
        append_page(alloc, lines, page)?;
    }
    Ok(())
}

/// The final lines of a state, each without its newline: harts with their registers, generations,
/// and data pages with the words that are not 0 of those that were written.
pub fn final_text(alloc: Global, end: &Flat) -> Result<Vec<Text>, Memory>
    ensures { IfOk result (λ lines. lines.items ≡ final_lines end.now) }
{
    let mut lines = Vec::new(alloc);
    append_harts(alloc, &mut lines, &end.harts)?;
    append_gens(alloc, &mut lines, &end.gens)?;
    append_pages(alloc, &mut lines, &end.pages)?;
    Ok(lines)
}
