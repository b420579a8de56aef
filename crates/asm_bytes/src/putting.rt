//! What a statement puts.
ghost use Rattle.std.specs.Prelude.{◌≡◌, ◌<◌, ◌≤◌, ◌≤ℤ◌, ◌+ℤ◌, ◌^◌, Some, true, ℕ, List, IfOk, IfErr, pos, negsuc, length};
ghost use Rattle.rv_encode.specs.Jumps.{distance};
ghost use Rattle.asm_lines.specs.Statements.{asked, Asked};
ghost use Rattle.asm_lines.specs.declared.statement.SectionId.{SectionId};
ghost use Rattle.asm_bytes.specs.Bytes.{IsFar, IsPut, bytes_of, align_bytes, number_bytes, put_bytes, use_bytes};
ghost use Rattle.asm_bytes.specs.Sizes.{may_stand, size_of};
ghost use Rattle.asm_bytes.specs.declared.fault.PutFault.TheVariants as fault;

use crate::PutFault;
use crate::instructions::{put_call, put_la, put_li, put_one};
use crate::numbers::{put_hex, put_nops, put_number, put_zeros};
use crate::sizes::{gap, may_stand};
use asm_lines::{SectionId, Statement, Use};
use rv_inst::Inst;

// How far it is from one address to another, where an instruction or two may reach so far.
fn near(from: u128, to: u128) -> Result<i64, PutFault>
    requires { (from < 2 ^ 126) × (to < 2 ^ 126) }
    ensures value { IfOk result (λ far. far ≡ distance from to) }
    ensures low { IfOk result (λ far. negsuc (2 ^ 33) ≤ℤ far) }
    ensures high { IfOk result (λ far. far ≤ℤ pos (2 ^ 33)) }
    ensures range { IfErr result (λ e. e ≡ fault.Range) }
    ensures far { IfErr result (λ e. IsFar (distance from to)) }
{
    let far = to as i128 - from as i128;
    if far < -(1 << 32) || 1 << 32 < far {
        return Err(PutFault::Range);
    }
    Ok(far as i64)
}

// Adds an address and a number, in so many bytes.
fn put_address(out: &mut Vec<u8>, width: u8, target: u128, addend: i128) -> Result<(), PutFault>
    requires { target < 2 ^ 126 }
    ensures { IsPut result out.old.items out.new.items (number_bytes width (pos target +ℤ addend)) }
{
    put_number(out, width, (target as i128).saturating_add(addend))
}

// Adds what the use of a label puts.
#[tactic(auto, unfolding(crate::specs::Bytes::use_bytes))]
fn put_use(out: &mut Vec<u8>, address: u128, target: u128, what: Use) -> Result<(), PutFault>
    requires low { address < 2 ^ 126 }
    requires target_low { target < 2 ^ 126 }
    ensures { IsPut result out.old.items out.new.items (use_bytes address target what) }
{
    match what {
        Use::Globl => Ok(()),
        Use::Size => Ok(()),
        Use::Address { width, addend } => { put_address(out, width, target, addend) }
        Use::Branch { cond, rs1, rs2 } => {
            let off = near(address, target)?;
            put_one(
                out,
                Inst::Branch {
                    cond,
                    rs1,
                    rs2,
                    off,
                },
            )
        }
        Use::Jal { rd } => {
            let off = near(address, target)?;
            put_one(out, Inst::Jal { rd, off })
        }
        Use::Call => {
            let far = near(address, target)?;
            put_call(out, far)
        }
        Use::La { rd } => {
            let far = near(address, target)?;
            put_la(out, rd, far)
        }
    }
}

// Adds what `.align` puts.
#[tactic(auto, unfolding(crate::specs::Bytes::align_bytes))]
fn put_align(out: &mut Vec<u8>, section: SectionId, n: u8) -> Result<(), PutFault>
    requires { n ≤ 12 }
    ensures { let bytes = align_bytes section n (length out.old.items) in
        IsPut result out.old.items out.new.items (Some bytes) }
{
    let offset = out.len() as u128;
    let whole = gap(1 << n, offset) as u64;
    match section {
        SectionId::Text => {
            let zeros = gap(4, offset) as u64;
            put_zeros(out, zeros)?;
            put_nops(out, whole.saturating_sub(zeros) / 4)?;
        }
        SectionId::Rodata => put_zeros(out, whole)?,
        SectionId::Data => put_zeros(out, whole)?,
        SectionId::Bss => put_zeros(out, whole)?,
    }
    Ok(())
}

// Adds what a statement puts that may stand in the section.
#[tactic(auto, unfolding(crate::specs::Sizes::may_stand, crate::specs::Bytes::put_bytes))]
fn put_there(
    out: &mut Vec<u8>,
    section: SectionId,
    address: u128,
    target: u128,
    statement: &Statement<'_>,
) -> Result<(), PutFault>
    requires stands { may_stand section (asked statement.now) ≡ true }
    requires low { address < 2 ^ 126 }
    requires target_low { target < 2 ^ 126 }
    ensures { let offset = length out.old.items in
        let bytes = put_bytes section offset address target (asked statement.now) in
        IsPut result out.old.items out.new.items bytes }
{
    match statement {
        Statement::Empty => Ok(()),
        Statement::Section(_) => Ok(()),
        Statement::Align(n) => put_align(out, section, *n),
        Statement::Zero(count) => {
            if u128::from(u64::MAX) < *count {
                return Err(PutFault::Memory);
            }
            Ok(put_zeros(out, *count as u64)?)
        }
        Statement::Number { width, value } => put_number(out, *width, *value),
        Statement::Hex(digits) => put_hex(out, digits),
        Statement::Ascii(text) => Ok(out.extend_from_slice(text)?),
        Statement::Li { rd, value } => put_li(out, *rd, *value),
        Statement::Plain(inst) => put_one(out, *inst),
        Statement::Named(what, _) => put_use(out, address, target, *what),
    }
}

/// Adds what a statement puts to its section, which has so many bytes so far and whose end has this
/// address; `target` is the address of the label that the statement names, and any number where it
/// names none. `Range` where a number or a distance does not fit, or the statement may not stand in
/// the section; then nothing is added.
#[tactic(auto, unfolding(crate::specs::Bytes::bytes_of))]
pub fn put(
    out: &mut Vec<u8>,
    section: SectionId,
    address: u128,
    target: u128,
    statement: &Statement<'_>,
) -> Result<(), PutFault>
    requires low { address < 2 ^ 126 }
    requires target_low { target < 2 ^ 126 }
    ensures { let offset = length out.old.items in
        let bytes = bytes_of section offset address target (asked statement.now) in
        IsPut result out.old.items out.new.items bytes }
{
    if !may_stand(section, statement) {
        return Err(PutFault::Range);
    }
    put_there(out, section, address, target, statement)
}

/// What a statement puts has the size that is known before any name is.
pub fn put_has_its_size()
    ensures { (id : SectionId) (offset address target : ℕ) (statement : Asked) (bytes : List ℕ)
        → bytes_of id offset address target statement ≡ Some bytes
        → size_of id offset statement ≡ Some (length bytes) }
{}
