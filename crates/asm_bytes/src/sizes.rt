//! How many bytes a statement takes.
ghost use Rattle.std.specs.Prelude.{◌≡◌, ◌<◌, true};
ghost use Rattle.asm_lines.specs.Statements.{asked};
ghost use Rattle.asm_bytes.specs.Sizes.{gap, has_contents, li_size, may_align, may_stand, puts_nothing, size_of, bytes_taken, use_size};

use crate::instructions::is_number;
use asm_lines::{SectionId, Statement, Use};

/// How many bytes there are from a place up to the next multiple of a number.
pub fn gap(step: u128, place: u128) -> u128
    requires { 0 < step }
    ensures value { result ≡ gap step place }
    ensures small { result < step }
{
    (step - place % step) % step
}

/// Whether what a name is for puts nothing.
pub fn puts_nothing(what: Use) -> bool
    ensures { result ≡ puts_nothing what }
{
    match what {
        Use::Globl => true,
        Use::Size => true,
        Use::Address { .. } => false,
        Use::Branch { .. } => false,
        Use::Jal { .. } => false,
        Use::Call => false,
        Use::La { .. } => false,
    }
}

// Whether `.align N` may stand in a section.
fn may_align(section: SectionId, n: u8) -> bool
    ensures { result ≡ may_align section n }
{
    match section {
        SectionId::Text => 2 <= n && n <= 12,
        SectionId::Rodata => n <= 12,
        SectionId::Data => n <= 12,
        SectionId::Bss => n <= 12,
    }
}

// Whether what has contents may stand in a section.
fn has_contents(section: SectionId) -> bool
    ensures { result ≡ has_contents section }
{
    match section {
        SectionId::Text => true,
        SectionId::Rodata => true,
        SectionId::Data => true,
        SectionId::Bss => false,
    }
}

// Whether a statement may stand in a section.
#[tactic(auto, unfolding(crate::specs::Sizes::may_stand))]
pub fn may_stand(section: SectionId, statement: &Statement<'_>) -> bool
    ensures { result ≡ may_stand section (asked statement.now) }
{
    match statement {
        Statement::Empty => true,
        Statement::Section(_) => true,
        Statement::Align(n) => may_align(section, *n),
        Statement::Zero(_) => true,
        Statement::Number { .. } => has_contents(section),
        Statement::Hex(_) => has_contents(section),
        Statement::Ascii(_) => has_contents(section),
        Statement::Li { .. } => has_contents(section),
        Statement::Plain(_) => has_contents(section),
        Statement::Named(what, _) => puts_nothing(*what) || has_contents(section),
    }
}

// How many bytes what a name is for takes.
fn use_size(what: Use) -> u8
    ensures { result ≡ use_size what }
{
    match what {
        Use::Globl => 0,
        Use::Size => 0,
        Use::Address { width, .. } => width,
        Use::Branch { .. } => 4,
        Use::Jal { .. } => 4,
        Use::Call => 8,
        Use::La { .. } => 8,
    }
}

// How many bytes `li` takes.
fn li_size(value: i128) -> u8
    ensures { result ≡ li_size value }
{
    if is_number(12, value) { 4 } else { 8 }
}

// How many bytes a statement takes that may stand in the section.
#[tactic(auto, unfolding(crate::specs::Sizes::may_stand, crate::specs::Sizes::bytes_taken))]
fn bytes_taken(section: SectionId, offset: u128, statement: &Statement<'_>) -> u128
    requires { may_stand section (asked statement.now) ≡ true }
    ensures { result ≡ bytes_taken offset (asked statement.now) }
{
    match statement {
        Statement::Empty => 0,
        Statement::Section(_) => 0,
        Statement::Align(n) => gap(1 << *n, offset),
        Statement::Zero(count) => *count,
        Statement::Number { width, .. } => u128::from(*width),
        Statement::Hex(digits) => digits.len() as u128 / 2,
        Statement::Ascii(text) => text.len() as u128,
        Statement::Li { value, .. } => u128::from(li_size(*value)),
        Statement::Plain(_) => 4,
        Statement::Named(what, _) => u128::from(use_size(*what)),
    }
}

/// How many bytes a statement takes in a section that has so many bytes so far, before any name is
/// known; or `None` where it may not stand there: in `.bss` all that has contents, and `.align` of
/// less than 2 in `.text`.
#[tactic(auto, unfolding(crate::specs::Sizes::size_of))]
pub fn size_of(section: SectionId, offset: u128, statement: &Statement<'_>) -> Option<u128>
    ensures { result ≡ size_of section offset (asked statement.now) }
{
    if may_stand(section, statement) {
        Some(bytes_taken(section, offset, statement))
    } else {
        None
    }
}
