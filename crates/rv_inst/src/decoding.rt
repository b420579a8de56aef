//! From a word to its instruction.
ghost use Rattle.std.specs.Prelude.{◌≡◌, ◌↔◌, IfSome, Some};
ghost use Rattle.rv_inst.specs.Rows.{IsRow};
ghost use Rattle.rv_inst.specs.Spelling.{IsSpelled};
ghost use Rattle.rv_inst.specs.declared.inst.Inst.{Inst};
ghost use Rattle.rv_inst.specs.Decoding.{inst_of, jalr_of, cond_at, branch_of, load_of, store_of, imm_with, imm_of, imm_word_of, base_at, other_at, product_at, base_word_at, other_word_at, product_word_at, op_at, op_word_at, alu_with, fence_of, system_of, amo_at, lr_of, amo_inst_of, atomic_with, atomic_of};

use crate::fields::{
    amount_32, amount_64, aq, funct3, funct5, funct6, funct7, imm_b, imm_i, imm_j, imm_s, imm_u,
    opcode, rd, rl, rs1, rs2,
};
use crate::{Inst, words_are_rows};
use rv_alu::{AluOp, AmoOp, Cond};

/// The instruction that a 32-bit word is, or `None` where it is none.
///
/// RISC-V unprivileged ISA, "RV32/64G Instruction Set Listings".
pub fn decode(word: u32) -> Option<Inst>
    ensures value { result ≡ inst_of word }
    // It is the instruction of a row, and each row's.
    ensures row { (inst : Inst) → (result ≡ Some inst) ↔ IsRow word inst }
    ensures spelled { IfSome result IsSpelled }
{
    words_are_rows();
    by_opcode(word)
}

#[tactic(auto, unfolding(crate::specs::Decoding::inst_of, crate::specs::Decoding::inst_by))]
fn by_opcode(word: u32) -> Option<Inst>
    ensures { result ≡ inst_of word }
{
    match opcode(word) {
        0x37 => Some(Inst::Lui {
            rd: rd(word),
            imm: imm_u(word),
        }),
        0x17 => Some(Inst::Auipc {
            rd: rd(word),
            imm: imm_u(word),
        }),
        0x6F => Some(Inst::Jal {
            rd: rd(word),
            off: imm_j(word),
        }),
        0x67 => jalr(word),
        0x63 => branch(word),
        0x03 => load(word),
        0x23 => store(word),
        0x13 => alu_imm(word),
        0x1B => alu_imm_word(word),
        0x33 => alu(word, op(funct7(word), funct3(word))),
        0x3B => alu(word, op_word(funct7(word), funct3(word))),
        0x0F => fence(word),
        0x73 => system(word),
        0x2F => atomic(word),
        _ => None,
    }
}

fn jalr(word: u32) -> Option<Inst>
    ensures { result ≡ jalr_of word }
{
    match funct3(word) {
        0 => Some(Inst::Jalr {
            rd: rd(word),
            rs1: rs1(word),
            off: imm_i(word),
        }),
        _ => None,
    }
}

fn condition(funct3: u32) -> Option<Cond>
    ensures { result ≡ cond_at funct3 }
{
    match funct3 {
        0 => Some(Cond::Equal),
        1 => Some(Cond::NotEqual),
        4 => Some(Cond::Less),
        5 => Some(Cond::GreaterOrEqual),
        6 => Some(Cond::LessUnsigned),
        7 => Some(Cond::GreaterOrEqualUnsigned),
        _ => None,
    }
}

fn branch(word: u32) -> Option<Inst>
    ensures { result ≡ branch_of word }
{
    Some(Inst::Branch {
        cond: condition(funct3(word))?,
        rs1: rs1(word),
        rs2: rs2(word),
        off: imm_b(word),
    })
}

fn load(word: u32) -> Option<Inst>
    ensures { result ≡ load_of word }
{
    let (width, signed) = match funct3(word) {
        0 => (1, true),
        1 => (2, true),
        2 => (4, true),
        3 => (8, true),
        4 => (1, false),
        5 => (2, false),
        6 => (4, false),
        _ => return None,
    };
    Some(Inst::Load {
        width,
        signed,
        rd: rd(word),
        rs1: rs1(word),
        off: imm_i(word),
    })
}

fn store(word: u32) -> Option<Inst>
    ensures { result ≡ store_of word }
{
    let width = match funct3(word) {
        0 => 1,
        1 => 2,
        2 => 4,
        3 => 8,
        _ => return None,
    };
    Some(Inst::Store {
        width,
        rs1: rs1(word),
        rs2: rs2(word),
        off: imm_s(word),
    })
}

fn with_imm(word: u32, op: AluOp, imm: i64) -> Option<Inst>
    ensures { result ≡ imm_with word op imm }
{
    Some(Inst::AluImm {
        op,
        rd: rd(word),
        rs1: rs1(word),
        imm,
    })
}

fn alu_imm(word: u32) -> Option<Inst>
    ensures { result ≡ imm_of word }
{
    match (funct3(word), funct6(word)) {
        (0, _) => with_imm(word, AluOp::Add, imm_i(word)),
        (1, 0b000000) => with_imm(word, AluOp::Sll, amount_64(word)),
        (2, _) => with_imm(word, AluOp::Slt, imm_i(word)),
        (3, _) => with_imm(word, AluOp::Sltu, imm_i(word)),
        (4, _) => with_imm(word, AluOp::Xor, imm_i(word)),
        (5, 0b000000) => with_imm(word, AluOp::Srl, amount_64(word)),
        (5, 0b010000) => with_imm(word, AluOp::Sra, amount_64(word)),
        (6, _) => with_imm(word, AluOp::Or, imm_i(word)),
        (7, _) => with_imm(word, AluOp::And, imm_i(word)),
        _ => None,
    }
}

fn alu_imm_word(word: u32) -> Option<Inst>
    ensures { result ≡ imm_word_of word }
{
    match (funct3(word), funct7(word)) {
        (0, _) => with_imm(word, AluOp::Addw, imm_i(word)),
        (1, 0x00) => with_imm(word, AluOp::Sllw, amount_32(word)),
        (5, 0x00) => with_imm(word, AluOp::Srlw, amount_32(word)),
        (5, 0x20) => with_imm(word, AluOp::Sraw, amount_32(word)),
        _ => None,
    }
}

fn base(funct3: u32) -> Option<AluOp>
    ensures { result ≡ base_at funct3 }
{
    match funct3 {
        0 => Some(AluOp::Add),
        1 => Some(AluOp::Sll),
        2 => Some(AluOp::Slt),
        3 => Some(AluOp::Sltu),
        4 => Some(AluOp::Xor),
        5 => Some(AluOp::Srl),
        6 => Some(AluOp::Or),
        7 => Some(AluOp::And),
        _ => None,
    }
}

fn other(funct3: u32) -> Option<AluOp>
    ensures { result ≡ other_at funct3 }
{
    match funct3 {
        0 => Some(AluOp::Sub),
        5 => Some(AluOp::Sra),
        _ => None,
    }
}

fn product(funct3: u32) -> Option<AluOp>
    ensures { result ≡ product_at funct3 }
{
    match funct3 {
        0 => Some(AluOp::Mul),
        1 => Some(AluOp::Mulh),
        2 => Some(AluOp::Mulhsu),
        3 => Some(AluOp::Mulhu),
        4 => Some(AluOp::Div),
        5 => Some(AluOp::Divu),
        6 => Some(AluOp::Rem),
        7 => Some(AluOp::Remu),
        _ => None,
    }
}

fn op(funct7: u32, funct3: u32) -> Option<AluOp>
    ensures { result ≡ op_at funct7 funct3 }
{
    match funct7 {
        0x00 => base(funct3),
        0x20 => other(funct3),
        0x01 => product(funct3),
        _ => None,
    }
}

fn base_word(funct3: u32) -> Option<AluOp>
    ensures { result ≡ base_word_at funct3 }
{
    match funct3 {
        0 => Some(AluOp::Addw),
        1 => Some(AluOp::Sllw),
        5 => Some(AluOp::Srlw),
        _ => None,
    }
}

fn other_word(funct3: u32) -> Option<AluOp>
    ensures { result ≡ other_word_at funct3 }
{
    match funct3 {
        0 => Some(AluOp::Subw),
        5 => Some(AluOp::Sraw),
        _ => None,
    }
}

fn product_word(funct3: u32) -> Option<AluOp>
    ensures { result ≡ product_word_at funct3 }
{
    match funct3 {
        0 => Some(AluOp::Mulw),
        4 => Some(AluOp::Divw),
        5 => Some(AluOp::Divuw),
        6 => Some(AluOp::Remw),
        7 => Some(AluOp::Remuw),
        _ => None,
    }
}

fn op_word(funct7: u32, funct3: u32) -> Option<AluOp>
    ensures { result ≡ op_word_at funct7 funct3 }
{
    match funct7 {
        0x00 => base_word(funct3),
        0x20 => other_word(funct3),
        0x01 => product_word(funct3),
        _ => None,
    }
}

fn alu(word: u32, op: Option<AluOp>) -> Option<Inst>
    ensures { result ≡ alu_with word op }
{
    Some(Inst::Alu {
        op: op?,
        rd: rd(word),
        rs1: rs1(word),
        rs2: rs2(word),
    })
}

fn fence(word: u32) -> Option<Inst>
    ensures { result ≡ fence_of word }
{
    match funct3(word) {
        0 => Some(Inst::Fence { raw: word }),
        1 => Some(Inst::FenceI { raw: word }),
        _ => None,
    }
}

fn system(word: u32) -> Option<Inst>
    ensures { result ≡ system_of word }
{
    match word {
        0x0000_0073 => Some(Inst::Ecall),
        0x0010_0073 => Some(Inst::Ebreak),
        _ => None,
    }
}

fn amo_op(funct5: u32) -> Option<AmoOp>
    ensures { result ≡ amo_at funct5 }
{
    match funct5 {
        0b00001 => Some(AmoOp::Swap),
        0b00000 => Some(AmoOp::Add),
        0b00100 => Some(AmoOp::Xor),
        0b01100 => Some(AmoOp::And),
        0b01000 => Some(AmoOp::Or),
        0b10000 => Some(AmoOp::Min),
        0b10100 => Some(AmoOp::Max),
        0b11000 => Some(AmoOp::Minu),
        0b11100 => Some(AmoOp::Maxu),
        _ => None,
    }
}

fn lr(word: u32, wide: bool) -> Option<Inst>
    ensures { result ≡ lr_of word wide }
{
    match rs2(word) {
        0 => Some(Inst::Lr {
            wide,
            aq: aq(word),
            rl: rl(word),
            rd: rd(word),
            rs1: rs1(word),
        }),
        _ => None,
    }
}

fn amo(word: u32, wide: bool) -> Option<Inst>
    ensures { result ≡ amo_inst_of word wide }
{
    Some(Inst::Amo {
        op: amo_op(funct5(word))?,
        wide,
        aq: aq(word),
        rl: rl(word),
        rd: rd(word),
        rs1: rs1(word),
        rs2: rs2(word),
    })
}

fn atomic_of_width(word: u32, wide: bool) -> Option<Inst>
    ensures { result ≡ atomic_with word wide }
{
    match funct5(word) {
        0b00010 => lr(word, wide),
        0b00011 => Some(Inst::Sc {
            wide,
            aq: aq(word),
            rl: rl(word),
            rd: rd(word),
            rs1: rs1(word),
            rs2: rs2(word),
        }),
        _ => amo(word, wide),
    }
}

fn atomic(word: u32) -> Option<Inst>
    ensures { result ≡ atomic_of word }
{
    match funct3(word) {
        2 => atomic_of_width(word, false),
        3 => atomic_of_width(word, true),
        _ => None,
    }
}
