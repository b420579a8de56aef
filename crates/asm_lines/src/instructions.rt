//! Instructions, as their texts show them.
ghost use Rattle.std.specs.Prelude.{◌≡◌, find};
ghost use Rattle.std.specs.Option.{option_map};
ghost use Rattle.std.specs.Str.{bytes_eq};
ghost use Rattle.rv_encode.specs.Texts as texts;
ghost use Rattle.asm_lines.specs.Instructions.{alu, alu_imm, load_kind, load, store_width, store, jalr, upper, upper_inst, bare, branch, jal, jal_to};
ghost use Rattle.asm_lines.specs.Statements.{asked};

use crate::numbers::number_of;
use crate::operands::{
    immediate, name_of, pair, register_and_address, register_and_number, three_registers,
};
use crate::registers::register_of;
use crate::{Statement, Use};
use rv_alu::{AluOp, Cond};
use rv_encode::{alu_name, branch_name, imm_name};
use rv_inst::Inst;

const ALU_OPS: [AluOp; 28] = [
    AluOp::Add,
    AluOp::Sub,
    AluOp::Sll,
    AluOp::Slt,
    AluOp::Sltu,
    AluOp::Xor,
    AluOp::Srl,
    AluOp::Sra,
    AluOp::Or,
    AluOp::And,
    AluOp::Addw,
    AluOp::Subw,
    AluOp::Sllw,
    AluOp::Srlw,
    AluOp::Sraw,
    AluOp::Mul,
    AluOp::Mulh,
    AluOp::Mulhsu,
    AluOp::Mulhu,
    AluOp::Div,
    AluOp::Divu,
    AluOp::Rem,
    AluOp::Remu,
    AluOp::Mulw,
    AluOp::Divw,
    AluOp::Divuw,
    AluOp::Remw,
    AluOp::Remuw,
];

const IMM_OPS: [AluOp; 13] = [
    AluOp::Add,
    AluOp::Slt,
    AluOp::Sltu,
    AluOp::Xor,
    AluOp::Or,
    AluOp::And,
    AluOp::Sll,
    AluOp::Srl,
    AluOp::Sra,
    AluOp::Addw,
    AluOp::Sllw,
    AluOp::Srlw,
    AluOp::Sraw,
];

const CONDS: [Cond; 6] = [
    Cond::Equal,
    Cond::NotEqual,
    Cond::Less,
    Cond::GreaterOrEqual,
    Cond::LessUnsigned,
    Cond::GreaterOrEqualUnsigned,
];

// The operation on two registers of this mnemonic.
fn alu_op(mnemonic: &[u8]) -> Option<AluOp>
    ensures { result ≡ find (λ op. bytes_eq (texts.alu_name op) mnemonic.now) ALU_OPS }
{
    ALU_OPS
        .iter()
        .copied()
        .find(|op| alu_name(*op).as_bytes() == mnemonic)
}

// The operation on a register and an immediate of this mnemonic.
fn imm_op(mnemonic: &[u8]) -> Option<AluOp>
    ensures { result ≡ find (λ op. bytes_eq (texts.imm_name op) mnemonic.now) IMM_OPS }
{
    IMM_OPS
        .iter()
        .copied()
        .find(|op| imm_name(*op).as_bytes() == mnemonic)
}

// The condition of a branch of this mnemonic.
fn cond(mnemonic: &[u8]) -> Option<Cond>
    ensures { result ≡ find (λ cond. bytes_eq (texts.branch_name cond) mnemonic.now) CONDS }
{
    CONDS
        .iter()
        .copied()
        .find(|cond| branch_name(*cond).as_bytes() == mnemonic)
}

// An operation on two registers, as `add`.
#[tactic(auto, unfolding(crate::specs::Instructions::alu))]
pub fn alu(mnemonic: &[u8], args: &[u8]) -> Option<Inst>
    ensures { result ≡ alu mnemonic.now args.now }
{
    let op = alu_op(mnemonic)?;
    let (rd, rs1, rs2) = three_registers(args)?;
    Some(Inst::Alu { op, rd, rs1, rs2 })
}

// An operation on a register and a number, as `addi`.
#[tactic(auto, unfolding(crate::specs::Instructions::alu_imm))]
pub fn alu_imm(mnemonic: &[u8], args: &[u8]) -> Option<Inst>
    ensures { result ≡ alu_imm mnemonic.now args.now }
{
    let op = imm_op(mnemonic)?;
    let (rd, rest) = pair(args)?;
    let rd = register_of(rd)?;
    let (rs1, number) = register_and_number(rest)?;
    let imm = immediate(number);
    Some(Inst::AluImm { op, rd, rs1, imm })
}

// The width in bytes of a load, and whether it extends the sign.
fn load_kind(mnemonic: &[u8]) -> Option<(u8, bool)>
    ensures { result ≡ load_kind mnemonic.now }
{
    if mnemonic == b"lb".as_slice() {
        Some((1, true))
    } else if mnemonic == b"lh".as_slice() {
        Some((2, true))
    } else if mnemonic == b"lw".as_slice() {
        Some((4, true))
    } else if mnemonic == b"ld".as_slice() {
        Some((8, true))
    } else if mnemonic == b"lbu".as_slice() {
        Some((1, false))
    } else if mnemonic == b"lhu".as_slice() {
        Some((2, false))
    } else if mnemonic == b"lwu".as_slice() {
        Some((4, false))
    } else {
        None
    }
}

// A load.
#[tactic(auto, unfolding(crate::specs::Instructions::load))]
pub fn load(mnemonic: &[u8], args: &[u8]) -> Option<Inst>
    ensures { result ≡ load mnemonic.now args.now }
{
    let (width, signed) = load_kind(mnemonic)?;
    let (rd, off, rs1) = register_and_address(args)?;
    Some(Inst::Load {
        width,
        signed,
        rd,
        rs1,
        off,
    })
}

// The width in bytes of a store.
fn store_width(mnemonic: &[u8]) -> Option<u8>
    ensures { result ≡ store_width mnemonic.now }
{
    if mnemonic == b"sb".as_slice() {
        Some(1)
    } else if mnemonic == b"sh".as_slice() {
        Some(2)
    } else if mnemonic == b"sw".as_slice() {
        Some(4)
    } else if mnemonic == b"sd".as_slice() {
        Some(8)
    } else {
        None
    }
}

// A store.
#[tactic(auto, unfolding(crate::specs::Instructions::store))]
pub fn store(mnemonic: &[u8], args: &[u8]) -> Option<Inst>
    ensures { result ≡ store mnemonic.now args.now }
{
    let width = store_width(mnemonic)?;
    let (rs2, off, rs1) = register_and_address(args)?;
    Some(Inst::Store {
        width,
        rs1,
        rs2,
        off,
    })
}

// `jalr`.
#[tactic(auto, unfolding(crate::specs::Instructions::jalr))]
pub fn jalr(mnemonic: &[u8], args: &[u8]) -> Option<Inst>
    ensures { result ≡ jalr mnemonic.now args.now }
{
    if mnemonic != b"jalr".as_slice() {
        return None;
    }
    let (rd, off, rs1) = register_and_address(args)?;
    Some(Inst::Jalr { rd, rs1, off })
}

// The immediate of `lui` and `auipc`, by its bits 31 to 12.
fn upper(number: i128) -> i64
    ensures { result ≡ upper number }
{
    if 0 <= number && number < 1 << 19 {
        number as i64 * 4096
    } else if 1 << 19 <= number && number < 1 << 20 {
        (number as i64 - (1 << 20)) * 4096
    } else {
        i64::MAX
    }
}

// `lui` and `auipc`.
#[tactic(auto, unfolding(crate::specs::Instructions::upper_inst))]
pub fn upper_inst(mnemonic: &[u8], args: &[u8]) -> Option<Inst>
    ensures { result ≡ upper_inst mnemonic.now args.now }
{
    if mnemonic == b"lui".as_slice() {
        let (rd, number) = register_and_number(args)?;
        Some(Inst::Lui {
            rd,
            imm: upper(number),
        })
    } else if mnemonic == b"auipc".as_slice() {
        let (rd, number) = register_and_number(args)?;
        Some(Inst::Auipc {
            rd,
            imm: upper(number),
        })
    } else {
        None
    }
}

// An instruction without operands.
#[tactic(auto, unfolding(crate::specs::Instructions::bare))]
pub fn bare(mnemonic: &[u8], args: &[u8]) -> Option<Inst>
    ensures { result ≡ bare mnemonic.now args.now }
{
    if !args.is_empty() {
        None
    } else if mnemonic == b"fence".as_slice() {
        Some(Inst::Fence { raw: 0x0FF0_000F })
    } else if mnemonic == b"fence.i".as_slice() {
        Some(Inst::FenceI { raw: 0x0000_100F })
    } else if mnemonic == b"ecall".as_slice() {
        Some(Inst::Ecall)
    } else if mnemonic == b"ebreak".as_slice() {
        Some(Inst::Ebreak)
    } else {
        None
    }
}

// A branch, to a name or by a number.
#[tactic(auto, unfolding(crate::specs::Instructions::branch))]
pub fn branch<'a>(mnemonic: &[u8], args: &'a [u8]) -> Option<Statement<'a>>
    ensures { option_map asked result ≡ branch mnemonic.now args.now }
{
    let cond = cond(mnemonic)?;
    let (rs1, rest) = pair(args)?;
    let rs1 = register_of(rs1)?;
    let (rs2, target) = pair(rest)?;
    let rs2 = register_of(rs2)?;
    match number_of(target) {
        Some(number) => {
            let off = immediate(number);
            Some(Statement::Plain(Inst::Branch {
                cond,
                rs1,
                rs2,
                off,
            }))
        }
        None => {
            let name = name_of(target)?;
            Some(Statement::Named(Use::Branch { cond, rs1, rs2 }, name))
        }
    }
}

// `jal` to a name or by a number.
#[tactic(auto, unfolding(crate::specs::Instructions::jal_to))]
fn jal_to(rd: u8, target: &[u8]) -> Option<Statement<'_>>
    ensures { option_map asked result ≡ jal_to rd target.now }
{
    match number_of(target) {
        Some(number) => {
            let off = immediate(number);
            Some(Statement::Plain(Inst::Jal { rd, off }))
        }
        None => {
            let name = name_of(target)?;
            Some(Statement::Named(Use::Jal { rd }, name))
        }
    }
}

// `jal`.
#[tactic(auto, unfolding(crate::specs::Instructions::jal))]
pub fn jal<'a>(mnemonic: &[u8], args: &'a [u8]) -> Option<Statement<'a>>
    ensures { option_map asked result ≡ jal mnemonic.now args.now }
{
    if mnemonic != b"jal".as_slice() {
        return None;
    }
    let (rd, target) = pair(args)?;
    let rd = register_of(rd)?;
    jal_to(rd, target)
}
