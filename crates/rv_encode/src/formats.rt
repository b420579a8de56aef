//! The words of the formats, where the fields are in range.
//!
//! RISC-V unprivileged ISA, "Base Instruction Formats" and "Immediate Encoding Variants".
ghost use Rattle.std.specs.Prelude.{◌<◌, ◌^◌};
ghost use Rattle.std.specs.Option.{SomeIff};
ghost use Rattle.rv_inst.specs.Spelling.{FitsR, FitsI, FitsShift, FitsS, FitsB, FitsU, FitsJ, low_bits};
ghost use Rattle.rv_inst.specs.Spelling.{word_r, word_i, word_s, word_b, word_u, word_j, shift_64, shift_32};

use crate::ranges::{amount, multiple, number, register};
use rv_inst::bits;

/// Format R: three registers.
pub fn format_r(opcode: u32, funct3: u32, funct7: u32, rd: u8, rs1: u8, rs2: u8) -> Option<u32>
    requires { (opcode < 2 ^ 7) × (funct3 < 2 ^ 3) × (funct7 < 2 ^ 7) }
    ensures { SomeIff result (FitsR rd rs1 rs2) (word_r opcode funct3 funct7 rd rs1 rs2) }
{
    let rd = register(rd)?;
    let rs1 = register(rs1)?;
    let rs2 = register(rs2)?;
    Some((funct7 << 25) + (rs2 << 20) + (rs1 << 15) + (funct3 << 12) + (rd << 7) + opcode)
}

/// Format I: two registers and a number.
pub fn format_i(opcode: u32, funct3: u32, rd: u8, rs1: u8, imm: i64) -> Option<u32>
    requires { (opcode < 2 ^ 7) × (funct3 < 2 ^ 3) }
    ensures { SomeIff result (FitsI rd rs1 imm) (word_i opcode funct3 rd rs1 (low_bits 12 imm)) }
{
    let rd = register(rd)?;
    let rs1 = register(rs1)?;
    let imm = number(12, imm)?;
    Some((imm << 20) + (rs1 << 15) + (funct3 << 12) + (rd << 7) + opcode)
}

/// Format I of a shift of 64 bits: two registers and an amount, with the six bits above it.
pub fn shift_64(opcode: u32, funct3: u32, funct6: u32, rd: u8, rs1: u8, imm: i64) -> Option<u32>
    requires { (opcode < 2 ^ 7) × (funct3 < 2 ^ 3) × (funct6 < 2 ^ 6) }
    ensures { SomeIff result (FitsShift 64 rd rs1 imm) (shift_64 opcode funct3 funct6 rd rs1 imm) }
{
    let rd = register(rd)?;
    let rs1 = register(rs1)?;
    let imm = (funct6 << 6) + amount(64, imm)?;
    Some((imm << 20) + (rs1 << 15) + (funct3 << 12) + (rd << 7) + opcode)
}

/// Format I of a shift of 32 bits: two registers and an amount, with funct7 above it.
pub fn shift_32(opcode: u32, funct3: u32, funct7: u32, rd: u8, rs1: u8, imm: i64) -> Option<u32>
    requires { (opcode < 2 ^ 7) × (funct3 < 2 ^ 3) × (funct7 < 2 ^ 7) }
    ensures { SomeIff result (FitsShift 32 rd rs1 imm) (shift_32 opcode funct3 funct7 rd rs1 imm) }
{
    let rd = register(rd)?;
    let rs1 = register(rs1)?;
    let imm = (funct7 << 5) + amount(32, imm)?;
    Some((imm << 20) + (rs1 << 15) + (funct3 << 12) + (rd << 7) + opcode)
}

/// Format S: two registers and a number.
pub fn format_s(opcode: u32, funct3: u32, rs1: u8, rs2: u8, imm: i64) -> Option<u32>
    requires { (opcode < 2 ^ 7) × (funct3 < 2 ^ 3) }
    ensures { SomeIff result (FitsS rs1 rs2 imm) (word_s opcode funct3 rs1 rs2 (low_bits 12 imm)) }
{
    let rs1 = register(rs1)?;
    let rs2 = register(rs2)?;
    let imm = number(12, imm)?;
    let high = bits(imm, 11, 5) << 25;
    let low = bits(imm, 4, 0) << 7;
    Some(high + (rs2 << 20) + (rs1 << 15) + (funct3 << 12) + low + opcode)
}

/// Format B: two registers and an even number.
pub fn format_b(opcode: u32, funct3: u32, rs1: u8, rs2: u8, off: i64) -> Option<u32>
    requires { (opcode < 2 ^ 7) × (funct3 < 2 ^ 3) }
    ensures { SomeIff result (FitsB rs1 rs2 off) (word_b opcode funct3 rs1 rs2 (low_bits 13 off)) }
{
    let rs1 = register(rs1)?;
    let rs2 = register(rs2)?;
    let off = multiple(13, 2, off)?;
    let high = (bits(off, 12, 12) << 31) + (bits(off, 10, 5) << 25);
    let low = (bits(off, 4, 1) << 8) + (bits(off, 11, 11) << 7);
    Some(high + (rs2 << 20) + (rs1 << 15) + (funct3 << 12) + low + opcode)
}

/// Format U: a register and a multiple of 4,096.
pub fn format_u(opcode: u32, rd: u8, imm: i64) -> Option<u32>
    requires { opcode < 2 ^ 7 }
    ensures { SomeIff result (FitsU rd imm) (word_u opcode rd (low_bits 32 imm)) }
{
    let rd = register(rd)?;
    let imm = multiple(32, 1 << 12, imm)?;
    Some((bits(imm, 31, 12) << 12) + (rd << 7) + opcode)
}

/// Format J: a register and an even number.
pub fn format_j(opcode: u32, rd: u8, off: i64) -> Option<u32>
    requires { opcode < 2 ^ 7 }
    ensures { SomeIff result (FitsJ rd off) (word_j opcode rd (low_bits 21 off)) }
{
    let rd = register(rd)?;
    let off = multiple(21, 2, off)?;
    let high = (bits(off, 20, 20) << 31) + (bits(off, 10, 1) << 21);
    let low = (bits(off, 11, 11) << 20) + (bits(off, 19, 12) << 12);
    Some(high + low + (rd << 7) + opcode)
}
