//! The directives.
ghost use Rattle.std.specs.Prelude.{◌≡◌};
ghost use Rattle.std.specs.List.{list_all};
ghost use Rattle.std.specs.Option.{option_map};
ghost use Rattle.asm_lines.specs.Directives.{align, ascii, directive, hex_digits, is_printable, number, number_or_name, place_directive, section_directive, zero_bytes};
ghost use Rattle.asm_lines.specs.Statements.{asked};

use crate::numbers::{are_hex_digits, number_of};
use crate::operands::{name_and_addend, name_of};
use crate::{SectionId, Statement, Use};

// A section's directive.
#[tactic(auto, unfolding(crate::specs::Directives::section_directive))]
fn section_directive<'a>(mnemonic: &[u8], args: &'a [u8]) -> Option<Statement<'a>>
    ensures { option_map asked result ≡ section_directive mnemonic.now args.now }
{
    if !args.is_empty() {
        None
    } else if mnemonic == b".text".as_slice() {
        Some(Statement::Section(SectionId::Text))
    } else if mnemonic == b".rodata".as_slice() {
        Some(Statement::Section(SectionId::Rodata))
    } else if mnemonic == b".data".as_slice() {
        Some(Statement::Section(SectionId::Data))
    } else if mnemonic == b".bss".as_slice() {
        Some(Statement::Section(SectionId::Bss))
    } else {
        None
    }
}

// `.align N`.
fn align(args: &[u8]) -> Option<Statement<'_>>
    ensures { option_map asked result ≡ align args.now }
{
    let number = number_of(args)?;
    if 0 <= number && number <= 12 {
        Some(Statement::Align(number as u8))
    } else {
        None
    }
}

// `.zero N`.
fn zero_bytes(args: &[u8]) -> Option<Statement<'_>>
    ensures { option_map asked result ≡ zero_bytes args.now }
{
    let number = number_of(args)?;
    if 0 <= number {
        Some(Statement::Zero(number as u128))
    } else {
        None
    }
}

// A number in so many bytes.
fn number(width: u8, args: &[u8]) -> Option<Statement<'_>>
    ensures { option_map asked result ≡ number width args.now }
{
    let value = number_of(args)?;
    Some(Statement::Number { width, value })
}

// A number in so many bytes, or a name with an addend.
#[tactic(auto, unfolding(crate::specs::Directives::number_or_name))]
fn number_or_name(width: u8, args: &[u8]) -> Option<Statement<'_>>
    ensures { option_map asked result ≡ number_or_name width args.now }
{
    if let Some(value) = number_of(args) {
        return Some(Statement::Number { width, value });
    }
    let (name, addend) = name_and_addend(args)?;
    Some(Statement::Named(Use::Address { width, addend }, name))
}

// `.hex DIGITS`.
#[tactic(auto, unfolding(crate::specs::Directives::hex_digits))]
fn hex_digits(args: &[u8]) -> Option<Statement<'_>>
    ensures { option_map asked result ≡ hex_digits args.now }
{
    if args.len() > 0 && args.len() % 2 == 0 && are_hex_digits(args) {
        Some(Statement::Hex(args))
    } else {
        None
    }
}

// A space or a printable byte, but no quote.
fn is_printable(byte: u8) -> bool
    ensures { result ≡ is_printable byte }
{
    b' ' <= byte && byte <= b'~' && byte != b'"'
}

fn are_printable(text: &[u8]) -> bool
    ensures { result ≡ list_all is_printable text.now }
{
    text.iter().all(|b| is_printable(*b))
}

// `.ascii "TEXT"`.
#[tactic(auto, unfolding(crate::specs::Directives::ascii))]
fn ascii(args: &[u8]) -> Option<Statement<'_>>
    ensures { option_map asked result ≡ ascii args.now }
{
    if args.len() < 2 || args[0] != b'"' || args[args.len() - 1] != b'"' {
        return None;
    }
    let text = &args[1..args.len() - 1];
    if are_printable(text) {
        Some(Statement::Ascii(text))
    } else {
        None
    }
}

// A directive of names and places.
#[tactic(auto, unfolding(crate::specs::Directives::place_directive))]
fn place_directive<'a>(mnemonic: &[u8], args: &'a [u8]) -> Option<Statement<'a>>
    ensures { option_map asked result ≡ place_directive mnemonic.now args.now }
{
    if mnemonic == b".globl".as_slice() {
        let name = name_of(args)?;
        Some(Statement::Named(Use::Globl, name))
    } else if mnemonic == b".size".as_slice() {
        let name = name_of(args)?;
        Some(Statement::Named(Use::Size, name))
    } else if mnemonic == b".align".as_slice() {
        align(args)
    } else {
        section_directive(mnemonic, args)
    }
}

// A directive.
#[tactic(auto, unfolding(crate::specs::Directives::directive))]
pub fn directive<'a>(mnemonic: &[u8], args: &'a [u8]) -> Option<Statement<'a>>
    ensures { option_map asked result ≡ directive mnemonic.now args.now }
{
    if mnemonic == b".byte".as_slice() {
        number(1, args)
    } else if mnemonic == b".half".as_slice() {
        number(2, args)
    } else if mnemonic == b".word".as_slice() {
        number_or_name(4, args)
    } else if mnemonic == b".dword".as_slice() {
        number_or_name(8, args)
    } else if mnemonic == b".zero".as_slice() {
        zero_bytes(args)
    } else if mnemonic == b".hex".as_slice() {
        hex_digits(args)
    } else if mnemonic == b".ascii".as_slice() {
        ascii(args)
    } else {
        place_directive(mnemonic, args)
    }
}
