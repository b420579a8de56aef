//! Lines.
ghost use Rattle.std.specs.Prelude.{◌≡◌, ◌≤◌, ◌<◌, length};
ghost use Rattle.std.specs.Option.{option_map};
ghost use Rattle.asm_lines.specs.Lines.{labelled, line_of, line_value, mnemonic_len, plain, statement_of, statement_with};
ghost use Rattle.asm_lines.specs.Statements.{asked};

use crate::Statement;
use crate::atomics::atomic;
use crate::bytes::{code_of, first_blank, is_name, name_len, trimmed_start};
use crate::directives::directive;
use crate::instructions::{alu, alu_imm, bare, branch, jal, jalr, load, store, upper_inst};
use crate::shorts::short;
use rv_inst::Inst;

/// A line: its label, if it has one, and what it asks for.
#[derive(Drop)]
pub struct Line<'a> {
    pub label: Option<&'a [u8]>,
    pub statement: Statement<'a>,
}

// An instruction that takes no name.
#[tactic(auto, unfolding(crate::specs::Lines::plain))]
fn plain(mnemonic: &[u8], args: &[u8]) -> Option<Inst>
    ensures { result ≡ plain mnemonic.now args.now }
{
    if let Some(inst) = alu(mnemonic, args) {
        return Some(inst);
    }
    if let Some(inst) = alu_imm(mnemonic, args) {
        return Some(inst);
    }
    if let Some(inst) = load(mnemonic, args) {
        return Some(inst);
    }
    if let Some(inst) = store(mnemonic, args) {
        return Some(inst);
    }
    if let Some(inst) = jalr(mnemonic, args) {
        return Some(inst);
    }
    if let Some(inst) = upper_inst(mnemonic, args) {
        return Some(inst);
    }
    if let Some(inst) = atomic(mnemonic, args) {
        return Some(inst);
    }
    bare(mnemonic, args)
}

// A directive, a short form or an instruction.
#[tactic(auto, unfolding(crate::specs::Lines::statement_with))]
fn statement_with<'a>(mnemonic: &[u8], args: &'a [u8]) -> Option<Statement<'a>>
    ensures { option_map asked result ≡ statement_with mnemonic.now args.now }
{
    if let Some(inst) = plain(mnemonic, args) {
        return Some(Statement::Plain(inst));
    }
    if let Some(statement) = branch(mnemonic, args) {
        return Some(statement);
    }
    if let Some(statement) = jal(mnemonic, args) {
        return Some(statement);
    }
    if let Some(statement) = short(mnemonic, args) {
        return Some(statement);
    }
    directive(mnemonic, args)
}

// How long the mnemonic at the front is.
fn mnemonic_len(text: &[u8]) -> usize
    ensures value { result ≡ mnemonic_len text.now }
    ensures bound { result ≤ length text.now }
{
    match first_blank(text) {
        Some(at) => at,
        None => text.len(),
    }
}

// What a text asks for that has no comment and no blanks at its ends.
#[tactic(auto, unfolding(crate::specs::Lines::statement_of))]
fn statement_of(text: &[u8]) -> Option<Statement<'_>>
    ensures { option_map asked result ≡ statement_of text.now }
{
    if text.is_empty() {
        return Some(Statement::Empty);
    }
    let end = mnemonic_len(text);
    statement_with(&text[..end], trimmed_start(&text[end..]))
}

// A line that begins with a name of so many bytes and a colon.
#[tactic(auto, unfolding(crate::specs::Lines::labelled))]
fn labelled(end: usize, code: &[u8]) -> Option<Line<'_>>
    requires { end < length code.now }
    ensures { option_map line_value result ≡ labelled end code.now }
{
    let label = &code[..end];
    if !is_name(label) {
        return None;
    }
    let statement = statement_of(trimmed_start(&code[end + 1..]))?;
    Some(Line {
        label: Some(label),
        statement,
    })
}

/// Reads a line: what it says, which is given without its newline; or `None` where it is no line of
/// the language. The time is that of its length.
#[tactic(auto, unfolding(crate::specs::Lines::line_of))]
pub fn read_line(text: &[u8]) -> Option<Line<'_>>
    ensures { option_map line_value result ≡ line_of text.now }
{
    let code = code_of(text);
    let end = name_len(code);
    if end < code.len() && code[end] == b':' {
        return labelled(end, code);
    }
    let statement = statement_of(code)?;
    Some(Line {
        label: None,
        statement,
    })
}
