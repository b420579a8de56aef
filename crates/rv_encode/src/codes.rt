//! The codes of operations and conditions.
ghost use Rattle.std.specs.Prelude.{◌≡◌, ◌+◌, ◌*◌, ◌<◌, ◌^◌, IfSome};
ghost use Rattle.rv_inst.specs.Rows.{branch_code, load_code, store_code, alu_codes, amo_code, wide_code};
ghost use Rattle.rv_inst.specs.Spelling.{atomic_code};

use rv_alu::{AluOp, AmoOp, Cond};

/// funct3 of a branch.
pub fn branch_code(cond: Cond) -> u32
    ensures value { result ≡ branch_code cond }
    ensures fits { result < 2 ^ 3 }
{
    match cond {
        Cond::Equal => 0,
        Cond::NotEqual => 1,
        Cond::Less => 4,
        Cond::GreaterOrEqual => 5,
        Cond::LessUnsigned => 6,
        Cond::GreaterOrEqualUnsigned => 7,
    }
}

/// funct3 of a load of so many bytes, where there is one.
pub fn load_code(width: u8, signed: bool) -> Option<u32>
    ensures value { result ≡ load_code width signed }
    ensures fits { IfSome result (λ code. code < 2 ^ 3) }
{
    match (width, signed) {
        (1, true) => Some(0),
        (2, true) => Some(1),
        (4, true) => Some(2),
        (8, true) => Some(3),
        (1, false) => Some(4),
        (2, false) => Some(5),
        (4, false) => Some(6),
        _ => None,
    }
}

/// funct3 of a store of so many bytes, where there is one.
pub fn store_code(width: u8) -> Option<u32>
    ensures value { result ≡ store_code width }
    ensures fits { IfSome result (λ code. code < 2 ^ 3) }
{
    match width {
        1 => Some(0),
        2 => Some(1),
        4 => Some(2),
        8 => Some(3),
        _ => None,
    }
}

/// opcode, funct3 and funct7 of an operation on two registers.
pub fn alu_codes(op: AluOp) -> (u32, u32, u32)
    ensures value { result ≡ alu_codes op }
    ensures opcode_fits { result.0 < 2 ^ 7 }
    ensures funct3_fits { result.1 < 2 ^ 3 }
    ensures funct7_fits { result.2 < 2 ^ 7 }
{
    match op {
        AluOp::Add => (0x33, 0, 0x00),
        AluOp::Sll => (0x33, 1, 0x00),
        AluOp::Slt => (0x33, 2, 0x00),
        AluOp::Sltu => (0x33, 3, 0x00),
        AluOp::Xor => (0x33, 4, 0x00),
        AluOp::Srl => (0x33, 5, 0x00),
        AluOp::Or => (0x33, 6, 0x00),
        AluOp::And => (0x33, 7, 0x00),
        AluOp::Sub => (0x33, 0, 0x20),
        AluOp::Sra => (0x33, 5, 0x20),
        AluOp::Mul => (0x33, 0, 0x01),
        AluOp::Mulh => (0x33, 1, 0x01),
        AluOp::Mulhsu => (0x33, 2, 0x01),
        AluOp::Mulhu => (0x33, 3, 0x01),
        AluOp::Div => (0x33, 4, 0x01),
        AluOp::Divu => (0x33, 5, 0x01),
        AluOp::Rem => (0x33, 6, 0x01),
        AluOp::Remu => (0x33, 7, 0x01),
        AluOp::Addw => (0x3B, 0, 0x00),
        AluOp::Sllw => (0x3B, 1, 0x00),
        AluOp::Srlw => (0x3B, 5, 0x00),
        AluOp::Subw => (0x3B, 0, 0x20),
        AluOp::Sraw => (0x3B, 5, 0x20),
        AluOp::Mulw => (0x3B, 0, 0x01),
        AluOp::Divw => (0x3B, 4, 0x01),
        AluOp::Divuw => (0x3B, 5, 0x01),
        AluOp::Remw => (0x3B, 6, 0x01),
        AluOp::Remuw => (0x3B, 7, 0x01),
    }
}

/// funct5 of an atomic memory operation.
pub fn amo_code(op: AmoOp) -> u32
    ensures value { result ≡ amo_code op }
    ensures fits { result < 2 ^ 5 }
{
    match op {
        AmoOp::Swap => 0b00001,
        AmoOp::Add => 0b00000,
        AmoOp::Xor => 0b00100,
        AmoOp::And => 0b01100,
        AmoOp::Or => 0b01000,
        AmoOp::Min => 0b10000,
        AmoOp::Max => 0b10100,
        AmoOp::Minu => 0b11000,
        AmoOp::Maxu => 0b11100,
    }
}

/// funct3 of an atomic instruction, of 64 bits or of 32.
pub fn wide_code(wide: bool) -> u32
    ensures value { result ≡ wide_code wide }
    ensures fits { result < 2 ^ 3 }
{
    if wide { 3 } else { 2 }
}

/// funct7 of an atomic instruction: funct5, and the bits aq and rl.
pub fn atomic_code(funct5: u32, aq: bool, rl: bool) -> u32
    requires { funct5 < 2 ^ 5 }
    ensures value { result ≡ atomic_code funct5 aq rl }
    ensures fits { result < 2 ^ 7 }
{
    (funct5 << 2) + (u32::from(aq) << 1) + u32::from(rl)
}
