//! The operands of a statement.
ghost use Rattle.std.specs.Prelude.{◌≡◌, ◌<◌, ◌≤◌, ◌^◌, ◌≤ℤ◌, ◌-ℤ◌, pos, length, IfSome, MatchOption, Some, None};
ghost use Rattle.std.specs.Option.{option_map};
ghost use Rattle.asm_lines.specs.Numbers.{number_of};
ghost use Rattle.asm_lines.specs.Operands.{pair, name_of, immediate, immediate_of, in_parentheses, address_of, two_registers, three_registers, register_and_number, register_and_address, register_and_name, addend_of, name_and_addend};

use crate::bytes::{is_name, name_len, place_of, trimmed};
use crate::numbers::{negated, number_of};
use crate::registers::register_of;

// What stands before the first comma and behind it, without blanks.
#[tactic(auto, unfolding(crate::specs::Operands::pair))]
pub fn pair(text: &[u8]) -> Option<(&[u8], &[u8])>
    ensures { MatchOption result (pair text.now ≡ None)
        (λ x. pair text.now ≡ Some (x.0.now, x.1.now)) }
{
    let at = place_of(b',', text)?;
    Some((trimmed(&text[..at]), trimmed(&text[at + 1..])))
}

// A name.
pub fn name_of(text: &[u8]) -> Option<&[u8]>
    ensures { MatchOption result (name_of text.now ≡ None) (λ x. name_of text.now ≡ Some x.now) }
{
    if is_name(text) { Some(text) } else { None }
}

// A number as an immediate: one that fits no instruction, where it has more than 64 bits.
pub fn immediate(number: i128) -> i64
    ensures { result ≡ immediate number }
{
    if number >= i128::from(i64::MIN) && number <= i128::from(i64::MAX) {
        number as i64
    } else {
        i64::MAX
    }
}

fn immediate_of(text: &[u8]) -> Option<i64>
    ensures { result ≡ immediate_of text.now }
{
    let number = number_of(text)?;
    Some(immediate(number))
}

// A register in parentheses.
#[tactic(auto, unfolding(crate::specs::Operands::in_parentheses))]
pub fn in_parentheses(text: &[u8]) -> Option<u8>
    ensures { result ≡ in_parentheses text.now }
{
    if text.len() >= 2 && text[0] == b'(' && text[text.len() - 1] == b')' {
        register_of(&text[1..text.len() - 1])
    } else {
        None
    }
}

// An offset and a register in parentheses.
#[tactic(auto, unfolding(crate::specs::Operands::address_of))]
fn address_of(text: &[u8]) -> Option<(i64, u8)>
    ensures { result ≡ address_of text.now }
{
    let at = place_of(b'(', text)?;
    let offset = immediate_of(&text[..at])?;
    let rs1 = in_parentheses(&text[at..])?;
    Some((offset, rs1))
}

// Two registers.
#[tactic(auto, unfolding(crate::specs::Operands::two_registers))]
pub fn two_registers(args: &[u8]) -> Option<(u8, u8)>
    ensures { result ≡ two_registers args.now }
{
    let (first, second) = pair(args)?;
    let first = register_of(first)?;
    let second = register_of(second)?;
    Some((first, second))
}

// Three registers.
#[tactic(auto, unfolding(crate::specs::Operands::three_registers))]
pub fn three_registers(args: &[u8]) -> Option<(u8, u8, u8)>
    ensures { result ≡ three_registers args.now }
{
    let (first, rest) = pair(args)?;
    let first = register_of(first)?;
    let (second, third) = two_registers(rest)?;
    Some((first, second, third))
}

// A register and a number.
#[tactic(auto, unfolding(crate::specs::Operands::register_and_number))]
pub fn register_and_number(args: &[u8]) -> Option<(u8, i128)>
    ensures { result ≡ register_and_number args.now }
{
    let (register, number) = pair(args)?;
    let register = register_of(register)?;
    let number = number_of(number)?;
    Some((register, number))
}

// A register and an address.
#[tactic(auto, unfolding(crate::specs::Operands::register_and_address))]
pub fn register_and_address(args: &[u8]) -> Option<(u8, i64, u8)>
    ensures { result ≡ register_and_address args.now }
{
    let (register, address) = pair(args)?;
    let register = register_of(register)?;
    let (offset, rs1) = address_of(address)?;
    Some((register, offset, rs1))
}

// A register and a name.
#[tactic(auto, unfolding(crate::specs::Operands::register_and_name))]
pub fn register_and_name(args: &[u8]) -> Option<(u8, &[u8])>
    ensures { MatchOption result (register_and_name args.now ≡ None)
        (λ x. register_and_name args.now ≡ Some (x.0, x.1.now)) }
{
    let (register, name) = pair(args)?;
    let register = register_of(register)?;
    let name = name_of(name)?;
    Some((register, name))
}

// A number with the other sign.
fn negated_number(text: &[u8]) -> Option<i128>
    ensures { result ≡ option_map (λ n. pos 0 -ℤ n) (number_of text.now) }
{
    let number = number_of(text)?;
    Some(negated(number))
}

// What an addend is that stands behind a name.
#[tactic(auto, unfolding(crate::specs::Operands::addend_of))]
fn addend_of(text: &[u8]) -> Option<i128>
    ensures { result ≡ addend_of text.now }
{
    let Some(sign) = text.first() else {
        return Some(0);
    };
    match *sign {
        b'+' => number_of(&text[1..]),
        b'-' => negated_number(&text[1..]),
        _ => None,
    }
}

// A name and an addend.
#[tactic(auto, unfolding(crate::specs::Operands::name_and_addend))]
pub fn name_and_addend(text: &[u8]) -> Option<(&[u8], i128)>
    ensures { MatchOption result (name_and_addend text.now ≡ None)
        (λ x. name_and_addend text.now ≡ Some (x.0.now, x.1)) }
{
    let end = name_len(text);
    let name = name_of(&text[..end])?;
    let addend = addend_of(&text[end..])?;
    Some((name, addend))
}
