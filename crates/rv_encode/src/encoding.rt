//! From an instruction to its word.
ghost use Rattle.std.specs.Prelude.{◌≡◌, ◌<◌, ◌^◌, ◌↔◌, ℕ, Some};
ghost use Rattle.std.specs.Option.{SomeIff};
ghost use Rattle.rv_inst.specs.Rows.{IsRow};
ghost use Rattle.rv_inst.specs.Fields.{opcode, funct3};
ghost use Rattle.rv_inst.specs.Decoding.{inst_of};
ghost use Rattle.rv_encode.specs.Words.{IsWordOf};
ghost use Rattle.rv_inst.specs.declared.inst.Inst.TheVariants as inst;

use crate::codes::{
    alu_codes, amo_code, atomic_code, branch_code, load_code, store_code, wide_code,
};
use crate::formats::{
    format_b, format_i, format_j, format_r, format_s, format_u, shift_32, shift_64,
};
use rv_alu::{AluOp, AmoOp, Cond};
use rv_inst::{Inst, words_are_rows};

/// The 32-bit word that is the instruction, or `None` where there is none: where the instruction
/// has no row in the table, or a field is out of its row's range.
///
/// RISC-V unprivileged ISA, "RV32/64G Instruction Set Listings".
pub fn encode(inst: Inst) -> Option<u32>
    ensures word { IsWordOf result inst }
    // The word is this instruction by its row, and each word that is.
    ensures row { (word : ℕ) → word < 2 ^ 32 → (result ≡ Some word) ↔ IsRow word inst }
    // Inverse to what decodes a word, both ways.
    ensures back { (word : ℕ) → word < 2 ^ 32 → (result ≡ Some word) ↔ (inst_of word ≡ Some inst) }
{
    words_are_rows();
    by_format(inst)
}

// By the format of the instruction's words.
fn by_format(inst: Inst) -> Option<u32>
    ensures { IsWordOf result inst }
{
    match inst {
        Inst::Lui { rd, imm } => format_u(0x37, rd, imm),
        Inst::Auipc { rd, imm } => format_u(0x17, rd, imm),
        Inst::Jal { rd, off } => format_j(0x6F, rd, off),
        Inst::Jalr { rd, rs1, off } => format_i(0x67, 0, rd, rs1, off),
        Inst::Branch {
            cond,
            rs1,
            rs2,
            off,
        } => format_b(0x63, branch_code(cond), rs1, rs2, off),
        Inst::Load {
            width,
            signed,
            rd,
            rs1,
            off,
        } => load(width, signed, rd, rs1, off),
        Inst::Store {
            width,
            rs1,
            rs2,
            off,
        } => store(width, rs1, rs2, off),
        Inst::AluImm { op, rd, rs1, imm } => alu_imm(op, rd, rs1, imm),
        Inst::Alu { op, rd, rs1, rs2 } => alu(op, rd, rs1, rs2),
        Inst::Amo {
            op,
            wide,
            aq,
            rl,
            rd,
            rs1,
            rs2,
        } => {
            format_r(
                0x2F,
                wide_code(wide),
                atomic_code(amo_code(op), aq, rl),
                rd,
                rs1,
                rs2,
            )
        }
        Inst::Lr {
            wide,
            aq,
            rl,
            rd,
            rs1,
        } => {
            format_r(
                0x2F,
                wide_code(wide),
                atomic_code(0b00010, aq, rl),
                rd,
                rs1,
                0,
            )
        }
        Inst::Sc {
            wide,
            aq,
            rl,
            rd,
            rs1,
            rs2,
        } => {
            format_r(
                0x2F,
                wide_code(wide),
                atomic_code(0b00011, aq, rl),
                rd,
                rs1,
                rs2,
            )
        }
        Inst::Fence { raw } => fence(raw, 0),
        Inst::FenceI { raw } => fence(raw, 1),
        Inst::Ecall => Some(0x0000_0073),
        Inst::Ebreak => Some(0x0010_0073),
    }
}

fn load(width: u8, signed: bool, rd: u8, rs1: u8, off: i64) -> Option<u32>
    ensures { IsWordOf result (inst.Load width signed rd rs1 off) }
{
    format_i(0x03, load_code(width, signed)?, rd, rs1, off)
}

fn store(width: u8, rs1: u8, rs2: u8, off: i64) -> Option<u32>
    ensures { IsWordOf result (inst.Store width rs1 rs2 off) }
{
    format_s(0x23, store_code(width)?, rs1, rs2, off)
}

fn alu_imm(op: AluOp, rd: u8, rs1: u8, imm: i64) -> Option<u32>
    ensures { IsWordOf result (inst.AluImm op rd rs1 imm) }
{
    match op {
        AluOp::Add => format_i(0x13, 0, rd, rs1, imm),
        AluOp::Slt => format_i(0x13, 2, rd, rs1, imm),
        AluOp::Sltu => format_i(0x13, 3, rd, rs1, imm),
        AluOp::Xor => format_i(0x13, 4, rd, rs1, imm),
        AluOp::Or => format_i(0x13, 6, rd, rs1, imm),
        AluOp::And => format_i(0x13, 7, rd, rs1, imm),
        AluOp::Sll => shift_64(0x13, 1, 0b000000, rd, rs1, imm),
        AluOp::Srl => shift_64(0x13, 5, 0b000000, rd, rs1, imm),
        AluOp::Sra => shift_64(0x13, 5, 0b010000, rd, rs1, imm),
        AluOp::Addw => format_i(0x1B, 0, rd, rs1, imm),
        AluOp::Sllw => shift_32(0x1B, 1, 0x00, rd, rs1, imm),
        AluOp::Srlw => shift_32(0x1B, 5, 0x00, rd, rs1, imm),
        AluOp::Sraw => shift_32(0x1B, 5, 0x20, rd, rs1, imm),
        _ => None,
    }
}

fn alu(op: AluOp, rd: u8, rs1: u8, rs2: u8) -> Option<u32>
    ensures { IsWordOf result (inst.Alu op rd rs1 rs2) }
{
    let (opcode, funct3, funct7) = alu_codes(op);
    format_r(opcode, funct3, funct7, rd, rs1, rs2)
}

// A fence of this funct3, whose other fields may be any.
fn fence(raw: u32, code: u32) -> Option<u32>
    ensures { SomeIff result ((raw < 2 ^ 32) × (opcode raw ≡ 0x0F) × (funct3 raw ≡ code)) raw }
{
    (raw % (1 << 7) == 0x0F && raw / (1 << 12) % 8 == code).then_some(raw)
}
