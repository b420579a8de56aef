//! The names that a source uses, and names for local labels that it does not.
ghost use Rattle.std.specs.Prelude.{◌≡◌, ◌≤◌, ◌<◌, ◌+◌, ◌^◌, ◌++◌, IfOk, IfSome, OnOk, length};
ghost use Rattle.std.specs.Option.{option_copied};
ghost use Rattle.asm_lines.specs.Lines.{line_of};
ghost use Rattle.asm_lines.specs.Statements.{asked};
ghost use Rattle.rv_asm.specs.Names.{IsNameIndex, free_names, if_named, is_la, is_la_line, is_la_use, la_count, name_in, name_values, names_in, names_used, own_label, pcrel_name, pcrel_names, with_free};
ghost use Rattle.rv_asm.specs.Uses.{IsPlainName};
ghost use Rattle.std.specs.List.{AllByRecursion};
ghost use Rattle.wf_text.specs.Lines.{lines_of};

use asm_lines::{Statement, Use, read_line};
use elf_write::Form;
use std::alloc::{AllocError, Global};
use std::collections::BTreeMap;
use wf_outside::Text;
use wf_text::{push_decimal, split_line};

/// The place of each name, from 0; of several that are one, the first.
pub fn index_of<'a>(
    alloc: Global,
    names: &[&'a [u8]],
) -> Result<BTreeMap<&'a [u8], usize>, AllocError>
    ensures { IfOk result (λ places. IsNameIndex places (name_values names.now)) }
{
    let mut places = BTreeMap::new(alloc);
    for (i, name) in names.iter().enumerate() {
        if !places.contains_key(*name) {
            places.insert(*name, i)?;
        }
    }
    Ok(places)
}

// Whether a name is that of `la`.
fn is_la_use(what: Use) -> bool
    ensures { result ≡ is_la_use what }
{
    match what {
        Use::La { .. } => true,
        Use::Globl
        | Use::Size
        | Use::Address { .. }
        | Use::Branch { .. }
        | Use::Jal { .. }
        | Use::Call => false,
    }
}

// Whether a statement is `la`.
fn is_la(statement: &Statement<'_>) -> bool
    ensures { result ≡ is_la (asked statement.now) }
{
    match statement {
        Statement::Named(what, _) => is_la_use(*what),
        Statement::Empty
        | Statement::Section(_)
        | Statement::Align(_)
        | Statement::Zero(_)
        | Statement::Number { .. }
        | Statement::Hex(_)
        | Statement::Ascii(_)
        | Statement::Li { .. }
        | Statement::Plain(_) => false,
    }
}

/// The name of the next local label, where a statement is `la` and so many of the names were taken.
pub fn own_label<'a>(names: &'a [Text], taken: usize, statement: &Statement<'_>) -> Option<&'a [u8]>
    ensures value { option_copied result ≡ own_label names.now taken (asked statement.now) }
    ensures bound { IfSome result (λ _. taken < length names.now) }
{
    if !is_la(statement) {
        return None;
    }
    names.get(taken).map(Text::bytes)
}

// The name in a statement.
fn name_in<'a>(statement: &Statement<'a>) -> Option<&'a [u8]>
    ensures { option_copied result ≡ name_in (asked statement.now) }
{
    match statement {
        Statement::Named(_, name) => Some(*name),
        Statement::Empty
        | Statement::Section(_)
        | Statement::Align(_)
        | Statement::Zero(_)
        | Statement::Number { .. }
        | Statement::Hex(_)
        | Statement::Ascii(_)
        | Statement::Li { .. }
        | Statement::Plain(_) => None,
    }
}

// Adds a name, if there is one.
fn push_name<'a>(out: &mut Vec<&'a [u8]>, name: Option<&'a [u8]>) -> Result<(), AllocError>
    ensures { OnOk result (name_values out.new.items
        ≡ name_values out.old.items ++ if_named (option_copied name.entry)) }
{
    if let Some(name) = name {
        out.push(name)?;
    }
    Ok(())
}

// Adds the names in a line.
fn push_names<'a>(out: &mut Vec<&'a [u8]>, text: &'a [u8]) -> Result<(), AllocError>
    ensures { OnOk result
        (name_values out.new.items ≡ name_values out.old.items ++ names_in (line_of text.now)) }
{
    let Some(line) = read_line(text) else {
        return Ok(());
    };
    push_name(out, line.label)?;
    push_name(out, name_in(&line.statement))
}

// The names in a source.
fn names_used(alloc: Global, source: &[u8]) -> Result<Vec<&[u8]>, AllocError>
    ensures { IfOk result (λ names. name_values names.items ≡ names_used (lines_of source.now)) }
{
    let mut names = Vec::new(alloc);
    let mut rest = source;
    while !rest.is_empty() {
        let (text, behind) = split_line(rest);
        push_names(&mut names, text)?;
        rest = behind;
    }
    Ok(names)
}

// Whether a line is `la`.
fn is_la_line(text: &[u8]) -> bool
    ensures { result ≡ is_la_line text.now }
{
    match read_line(text) {
        Some(line) => is_la(&line.statement),
        None => false,
    }
}

// How many lines of a source are `la`.
#[tactic(auto, using(crate::proofs::FirstLemmas::none_left))]
fn la_count(source: &[u8]) -> usize
    ensures value { result ≡ la_count (lines_of source.now) }
    ensures few { result ≤ length source.now }
{
    let mut rest = source;
    let mut count = 0;
    while !rest.is_empty() {
        let (text, behind) = split_line(rest);
        if is_la_line(text) {
            count += 1;
        }
        rest = behind;
    }
    count
}

// The name of the local label with this number.
fn pcrel_name(alloc: Global, n: u64) -> Result<Text, AllocError>
    ensures value { IfOk result (λ name. name ≡ pcrel_name n) }
    ensures plain { IfOk result IsPlainName }
{
    let mut name = b".Lp".to_vec(alloc)?;
    push_decimal(&mut name, n)?;
    Ok(Text::from(name))
}

// Adds a name, if it is free and there are fewer than so many.
fn push_free(
    out: &mut Vec<Text>,
    count: usize,
    index: &BTreeMap<&[u8], usize>,
    used: &[&[u8]],
    name: Text,
) -> Result<(), AllocError>
    requires { IsNameIndex index.now (name_values used.now) }
    ensures { OnOk result
        (out.new.items ≡ with_free count (name_values used.now) out.old.items name) }
{
    if out.len() < count && !index.contains_key(name.bytes()) {
        out.push(name)?;
    }
    Ok(())
}

// The first so many names of local labels, by rising numbers, that are none of those used.
#[tactic(auto, unfolding(crate::specs::Names::free_names))]
fn free_names(alloc: Global, count: usize, used: &[&[u8]]) -> Result<Vec<Text>, AllocError>
    requires { count + length used.now < 2 ^ 64 }
    ensures value { IfOk result
        (λ names. names.items ≡ free_names count (name_values used.now)) }
    ensures plain { IfOk result (λ names. AllByRecursion IsPlainName names.items) }
{
    let index = index_of(alloc, used)?;
    let mut names = Vec::new(alloc);
    for n in 0..count + used.len() {
        let name = pcrel_name(alloc, n as u64)?;
        push_free(&mut names, count, &index, used, name)?;
    }
    Ok(names)
}

/// The names of the local labels of an object, one for each `la` in its source, which no line uses:
/// `.Lp` and a number.
pub fn pcrel_names(alloc: Global, form: Form, source: &[u8]) -> Result<Vec<Text>, AllocError>
    ensures value { IfOk result
        (λ names. names.items ≡ pcrel_names form (lines_of source.now)) }
    // None has a zero byte.
    ensures plain { IfOk result (λ names. AllByRecursion IsPlainName names.items) }
{
    match form {
        Form::Exec => Ok(Vec::new(alloc)),
        Form::Object => {
            let used = names_used(alloc, source)?;
            free_names(alloc, la_count(source), &used)
        }
    }
}
