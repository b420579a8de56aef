//! The texts of the files.
ghost use Rattle.std.specs.Prelude.{◌≡◌, ◌<◌, ◌≤◌, ◌++◌, ◌^◌, IfOk, OnOk};
ghost use Rattle.std.specs.Fmt.{decimal};
ghost use Rattle.wf_gen.specs.Sources as texts;
ghost use Rattle.wf_gen.specs.Sources.{text_line};

use std::alloc::Global;
use wf_outside::Memory;
use wf_text::push_decimal;

// A line of these parts: a text and a number.
fn push_numbered(out: &mut Vec<u8>, text: &[u8], number: u64) -> Result<(), Memory>
    ensures { OnOk result
        (out.new.items ≡ out.old.items ++ text_line (text.now ++ decimal number)) }
{
    out.extend_from_slice(text)?;
    push_decimal(out, number)?;
    out.push(b'\n')?;
    Ok(())
}

// A letter and a number.
fn name_of(alloc: Global, letter: &[u8], number: u64) -> Result<Vec<u8>, Memory>
    ensures { IfOk result (λ name. name.items ≡ letter.now ++ decimal number) }
{
    let mut name = Vec::new(alloc);
    name.extend_from_slice(letter)?;
    push_decimal(&mut name, number)?;
    Ok(name)
}

// The calls of the functions.
fn push_calls(out: &mut Vec<u8>, n: u64) -> Result<(), Memory>
    ensures { OnOk result (out.new.items ≡ out.old.items ++ texts.call_lines n) }
{
    for i in 0..n {
        push_numbered(out, b"        jal ra, f", i)?;
    }
    Ok(())
}

// A function that adds a number to the sum, and returns.
#[tactic(auto, unfolding(crate::specs::Sources::function_lines))]
fn push_function(out: &mut Vec<u8>, name: &[u8], number: u64) -> Result<(), Memory>
    ensures { OnOk result
        (out.new.items ≡ out.old.items ++ texts.function_lines name.now number) }
{
    out.extend_from_slice(name)?;
    push_numbered(out, b":     addi s1, s1, ", number)?;
    out.extend_from_slice(b"        jalr x0, 0(ra)\n")?;
    out.extend_from_slice(b"        .size ")?;
    out.extend_from_slice(name)?;
    out.push(b'\n')?;
    Ok(())
}

// The functions.
fn push_functions(alloc: Global, out: &mut Vec<u8>, n: u64) -> Result<(), Memory>
    ensures { OnOk result (out.new.items ≡ out.old.items ++ texts.functions_lines n) }
{
    for i in 0..n {
        push_function(out, &name_of(alloc, b"f", i)?, i % 100 + 1)?;
    }
    Ok(())
}

// The lines before the calls.
#[tactic(auto, unfolding(crate::specs::Sources::head_lines))]
fn push_head(out: &mut Vec<u8>, rounds: u64) -> Result<(), Memory>
    ensures { OnOk result (out.new.items ≡ out.old.items ++ texts.head_lines rounds) }
{
    push_numbered(out, b"_start: addi s0, x0, ", rounds)?;
    out.extend_from_slice(b"        addi s1, x0, 0\n")?;
    out.extend_from_slice(b"round:\n")?;
    Ok(())
}

// The lines behind the calls.
#[tactic(auto, unfolding(crate::specs::Sources::tail_lines))]
fn push_tail(out: &mut Vec<u8>) -> Result<(), Memory>
    ensures { OnOk result (out.new.items ≡ out.old.items ++ texts.tail_lines) }
{
    out.extend_from_slice(b"        addi a7, x0, 6\n        ecall\n")?;
    out.extend_from_slice(b"        addi s0, s0, -1\n        beq s0, x0, done\n")?;
    out.extend_from_slice(b"        jal x0, round\ndone:   addi a0, s1, 0\n")?;
    out.extend_from_slice(b"        addi a7, x0, 0\n        ecall\n")?;
    Ok(())
}

/// How many patches a program of so many functions has.
pub fn patch_count(n: u64) -> u64
    ensures value { result ≡ texts.patch_count n }
    ensures few { result ≤ 8 }
{
    n.min(8)
}

/// The source of a program of so many functions.
#[tactic(auto, unfolding(crate::specs::Sources::program_source))]
pub fn program_source(alloc: Global, n: u64) -> Result<Vec<u8>, Memory>
    ensures { IfOk result (λ source. source.items ≡ texts.program_source n) }
{
    let mut out = Vec::new(alloc);
    push_head(&mut out, patch_count(n) + 1)?;
    push_calls(&mut out, n)?;
    push_tail(&mut out)?;
    push_functions(alloc, &mut out, n)?;
    Ok(out)
}

/// The source of the object of a patch.
#[tactic(auto, unfolding(crate::specs::Sources::object_source))]
pub fn object_source(alloc: Global, j: u64) -> Result<Vec<u8>, Memory>
    ensures { IfOk result (λ source. source.items ≡ texts.object_source j) }
{
    let mut out = Vec::new(alloc);
    push_function(&mut out, &name_of(alloc, b"g", j)?, j % 100 + 2)?;
    Ok(out)
}

/// The name of a patch.
pub fn patch_name(alloc: Global, j: u64) -> Result<Vec<u8>, Memory>
    ensures { IfOk result (λ name. name.items ≡ texts.patch_name j) }
{
    name_of(alloc, b"p", j)
}

/// The name of a patch's object.
pub fn object_name(alloc: Global, j: u64) -> Result<Vec<u8>, Memory>
    ensures { IfOk result (λ name. name.items ≡ texts.object_name j) }
{
    let mut name = patch_name(alloc, j)?;
    name.extend_from_slice(b".o")?;
    Ok(name)
}

/// The file of a patch.
#[tactic(auto, unfolding(crate::specs::Sources::patch_text))]
pub fn patch_text(alloc: Global, j: u64) -> Result<Vec<u8>, Memory>
    ensures { IfOk result (λ text. text.items ≡ texts.patch_text j) }
{
    let mut out = Vec::new(alloc);
    out.extend_from_slice(b"wfpatch 1\n")?;
    out.extend_from_slice(b"object ")?;
    out.extend_from_slice(&object_name(alloc, j)?)?;
    out.push(b'\n')?;
    out.extend_from_slice(b"replace ")?;
    out.extend_from_slice(&name_of(alloc, b"f", j)?)?;
    push_numbered(&mut out, b" g", j)?;
    Ok(out)
}

// The patches with the rounds behind them.
fn push_rounds(out: &mut Vec<u8>, n: u64, patches: u64) -> Result<(), Memory>
    requires few { n ≤ 10000 }
    requires few_patches { patches ≤ 8 }
    ensures { OnOk result (out.new.items ≡ out.old.items ++ texts.round_lines n patches) }
{
    for j in 0..patches {
        push_numbered(out, b"patch p", j)?;
        push_numbered(out, b"run ", 3 * n + 2 * (j + 1) + 5)?;
    }
    Ok(())
}

/// The script of a program of so many functions, at most 10,000.
#[tactic(auto, unfolding(crate::specs::Sources::script_text))]
pub fn script_text(alloc: Global, n: u64) -> Result<Vec<u8>, Memory>
    requires { n ≤ 10000 }
    ensures { IfOk result (λ text. text.items ≡ texts.script_text n) }
{
    let mut out = Vec::new(alloc);
    push_numbered(&mut out, b"run ", 3 * n + 3)?;
    push_rounds(&mut out, n, patch_count(n))?;
    push_numbered(&mut out, b"run ", 6)?;
    Ok(out)
}
