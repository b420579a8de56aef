//! The short forms.
ghost use Rattle.std.specs.Prelude.{◌≡◌, pos};
ghost use Rattle.std.specs.Option.{option_map};
ghost use Rattle.asm_lines.specs.Shorts.{bare_short, short};
ghost use Rattle.asm_lines.specs.Statements.{asked};

use crate::operands::{name_of, register_and_name, register_and_number, two_registers};
use crate::{Statement, Use};
use rv_alu::AluOp;
use rv_inst::Inst;

// `addi` of a register and a number that is 0.
fn copy(rd: u8, rs1: u8) -> Inst
    ensures { result ≡ Inst.AluImm AluOp.Add rd rs1 (pos 0) }
{
    Inst::AluImm {
        op: AluOp::Add,
        rd,
        rs1,
        imm: 0,
    }
}

// A short form without operands.
#[tactic(auto, unfolding(crate::specs::Shorts::bare_short))]
fn bare_short<'a>(mnemonic: &[u8], args: &'a [u8]) -> Option<Statement<'a>>
    ensures { option_map asked result ≡ bare_short mnemonic.now args.now }
{
    if !args.is_empty() {
        None
    } else if mnemonic == b"nop".as_slice() {
        Some(Statement::Plain(copy(0, 0)))
    } else if mnemonic == b"ret".as_slice() {
        Some(Statement::Plain(Inst::Jalr {
            rd: 0,
            rs1: 1,
            off: 0,
        }))
    } else {
        None
    }
}

// A short form.
#[tactic(auto, unfolding(crate::specs::Shorts::short))]
pub fn short<'a>(mnemonic: &[u8], args: &'a [u8]) -> Option<Statement<'a>>
    ensures { option_map asked result ≡ short mnemonic.now args.now }
{
    if mnemonic == b"mv".as_slice() {
        let (rd, rs1) = two_registers(args)?;
        Some(Statement::Plain(copy(rd, rs1)))
    } else if mnemonic == b"li".as_slice() {
        let (rd, value) = register_and_number(args)?;
        Some(Statement::Li { rd, value })
    } else if mnemonic == b"la".as_slice() {
        let (rd, name) = register_and_name(args)?;
        Some(Statement::Named(Use::La { rd }, name))
    } else if mnemonic == b"call".as_slice() {
        let name = name_of(args)?;
        Some(Statement::Named(Use::Call, name))
    } else if mnemonic == b"j".as_slice() {
        let name = name_of(args)?;
        Some(Statement::Named(Use::Jal { rd: 0 }, name))
    } else {
        bare_short(mnemonic, args)
    }
}
