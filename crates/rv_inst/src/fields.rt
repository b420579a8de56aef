//! The fields of a word.
//!
//! RISC-V unprivileged ISA, "Base Instruction Formats" and "Immediate Encoding Variants".
ghost use Rattle.std.specs.Prelude.{◌≡◌, ◌<◌, ◌≤◌, ◌+◌, pos};
ghost use Rattle.rv_inst.specs.Fields as fields;

/// The bits of a word from the highest down to the lowest, as a number.
///
/// RISC-V unprivileged ISA, "Base Instruction Formats".
pub fn bits(word: u32, high: u32, low: u32) -> u32
    requires { (low ≤ high) × (high < 32) × (high < low + 31) }
    ensures { result ≡ fields.bits high low word }
{
    (word >> low) % (1 << (high + 1 - low))
}

/// The opcode, in bits 6 to 0.
pub fn opcode(word: u32) -> u32
    ensures { result ≡ fields.opcode word }
{
    bits(word, 6, 0)
}

/// The register that is written, in bits 11 to 7.
pub fn rd(word: u32) -> u8
    ensures { result ≡ fields.rd_in word }
{
    bits(word, 11, 7) as u8
}

/// funct3, in bits 14 to 12.
pub fn funct3(word: u32) -> u32
    ensures { result ≡ fields.funct3 word }
{
    bits(word, 14, 12)
}

/// The first register that is read, in bits 19 to 15.
pub fn rs1(word: u32) -> u8
    ensures { result ≡ fields.rs1_in word }
{
    bits(word, 19, 15) as u8
}

/// The second register that is read, in bits 24 to 20.
pub fn rs2(word: u32) -> u8
    ensures { result ≡ fields.rs2_in word }
{
    bits(word, 24, 20) as u8
}

/// funct7, in bits 31 to 25.
pub fn funct7(word: u32) -> u32
    ensures { result ≡ fields.funct7 word }
{
    bits(word, 31, 25)
}

/// What stands above the amount of a shift of 64 bits.
pub fn funct6(word: u32) -> u32
    ensures { result ≡ fields.funct6 word }
{
    bits(word, 31, 26)
}

/// funct5 of an atomic instruction.
pub fn funct5(word: u32) -> u32
    ensures { result ≡ fields.funct5 word }
{
    bits(word, 31, 27)
}

/// The acquire bit of an atomic instruction.
pub fn aq(word: u32) -> bool
    ensures { result ≡ fields.aq_in word }
{
    bits(word, 26, 26) == 1
}

/// The release bit of an atomic instruction.
pub fn rl(word: u32) -> bool
    ensures { result ≡ fields.rl_in word }
{
    bits(word, 25, 25) == 1
}

/// The immediate of format I.
pub fn imm_i(word: u32) -> i64
    ensures { result ≡ fields.imm_i word }
{
    let n = i64::from(bits(word, 31, 20));
    if n < 1 << 11 { n } else { n - (1 << 12) }
}

/// The immediate of format S.
pub fn imm_s(word: u32) -> i64
    ensures { result ≡ fields.imm_s word }
{
    let n = i64::from(bits(word, 31, 25) * (1 << 5) + bits(word, 11, 7));
    if n < 1 << 11 { n } else { n - (1 << 12) }
}

/// The offset of format B.
pub fn imm_b(word: u32) -> i64
    ensures { result ≡ fields.imm_b word }
{
    let high = bits(word, 31, 31) * (1 << 12) + bits(word, 7, 7) * (1 << 11);
    let low = bits(word, 30, 25) * (1 << 5) + bits(word, 11, 8) * (1 << 1);
    let n = i64::from(high + low);
    if n < 1 << 12 { n } else { n - (1 << 13) }
}

/// The immediate of format U.
pub fn imm_u(word: u32) -> i64
    ensures { result ≡ fields.imm_u word }
{
    let n = i64::from(bits(word, 31, 12)) * (1 << 12);
    if n < 1 << 31 { n } else { n - (1 << 32) }
}

/// The offset of format J.
pub fn imm_j(word: u32) -> i64
    ensures { result ≡ fields.imm_j word }
{
    let high = bits(word, 31, 31) * (1 << 20) + bits(word, 19, 12) * (1 << 12);
    let low = bits(word, 20, 20) * (1 << 11) + bits(word, 30, 21) * (1 << 1);
    let n = i64::from(high + low);
    if n < 1 << 20 { n } else { n - (1 << 21) }
}

/// The amount of a shift of 64 bits.
pub fn amount_64(word: u32) -> i64
    ensures { result ≡ pos (fields.amount_64 word) }
{
    i64::from(bits(word, 25, 20))
}

/// The amount of a shift of 32 bits.
pub fn amount_32(word: u32) -> i64
    ensures { result ≡ pos (fields.amount_32 word) }
{
    i64::from(bits(word, 24, 20))
}
