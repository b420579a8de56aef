//! What the operations and the conditions give.
ghost use Rattle.std.specs.Prelude.{◌≡◌, ◌^◌, ◌<◌, IsFalse};
ghost use Rattle.rv_alu.specs.Arithmetic.{alu_of, amo_of, amo_in, taken_of, wrapped, shifted_right, signed_quotient, signed_remainder, unsigned_quotient, unsigned_remainder, extended, low_word, signed_word};

use crate::{AluOp, AmoOp, Cond};

/// What the operation gives of two numbers. A signed operand or result is given by its two's
/// complement.
///
/// RISC-V unprivileged ISA, "Integer Computational Instructions", and "M" Extension for Integer
/// Multiplication and Division.
pub fn alu(op: AluOp, a: u64, b: u64) -> u64
    ensures { result ≡ alu_of op a b }
{
    match op {
        AluOp::Add => a.wrapping_add(b),
        AluOp::Sub => a.wrapping_sub(b),
        AluOp::Sll => a << (b % 64),
        AluOp::Slt => u64::from(a.cast_signed() < b.cast_signed()),
        AluOp::Sltu => u64::from(a < b),
        AluOp::Xor => a ^ b,
        AluOp::Srl => a >> (b % 64),
        AluOp::Sra => (a.cast_signed() >> (b % 64)).cast_unsigned(),
        AluOp::Or => a | b,
        AluOp::And => a & b,
        AluOp::Addw => sign_extended(a.wrapping_add(b)),
        AluOp::Subw => sign_extended(a.wrapping_sub(b)),
        AluOp::Sllw => sign_extended(a << (b % 32)),
        AluOp::Srlw => sign_extended(u64::from(low_word(a) >> (b % 32))),
        AluOp::Sraw => (signed_word(a) >> (b % 32)).cast_unsigned(),
        AluOp::Mul => a.wrapping_mul(b),
        AluOp::Mulh => high_half(i128::from(a.cast_signed()) * i128::from(b.cast_signed())),
        AluOp::Mulhsu => high_half(i128::from(a.cast_signed()) * i128::from(b)),
        AluOp::Mulhu => ((u128::from(a) * u128::from(b)) >> 64) as u64,
        AluOp::Div => signed_quotient(a.cast_signed(), b.cast_signed()),
        AluOp::Divu => a.checked_div(b).unwrap_or(u64::MAX),
        AluOp::Rem => signed_remainder(a.cast_signed(), b.cast_signed()),
        AluOp::Remu => a.checked_rem(b).unwrap_or(a),
        AluOp::Mulw => sign_extended(a.wrapping_mul(b)),
        AluOp::Divw => sign_extended(signed_quotient(signed_word(a), signed_word(b))),
        AluOp::Divuw => sign_extended(u64::from(word_quotient(low_word(a), low_word(b)))),
        AluOp::Remw => sign_extended(signed_remainder(signed_word(a), signed_word(b))),
        AluOp::Remuw => sign_extended(u64::from(word_remainder(low_word(a), low_word(b)))),
    }
}

/// What an atomic memory operation writes, made of the old number in memory and that of a register.
/// A wide operation is of 64 bits; one that is not is of the low 32 bits of both numbers, and what
/// it writes is below 2^32.
///
/// RISC-V unprivileged ISA, "Atomic Memory Operations".
pub fn amo(op: AmoOp, wide: bool, old: u64, b: u64) -> u64
    ensures value { result ≡ amo_of op wide old b }
    ensures word { IsFalse wide → result < 2 ^ 32 }
{
    if wide {
        amo_doubleword(op, old, b)
    } else {
        u64::from(amo_word(op, low_word(old), low_word(b)))
    }
}

/// Whether a branch on the condition is taken, of two numbers. A signed one is given by its two's
/// complement.
///
/// RISC-V unprivileged ISA, "Conditional Branches".
pub fn taken(cond: Cond, a: u64, b: u64) -> bool
    ensures { result ≡ taken_of cond a b }
{
    match cond {
        Cond::Equal => a == b,
        Cond::NotEqual => a != b,
        Cond::Less => a.cast_signed() < b.cast_signed(),
        Cond::GreaterOrEqual => a.cast_signed() >= b.cast_signed(),
        Cond::LessUnsigned => a < b,
        Cond::GreaterOrEqualUnsigned => a >= b,
    }
}

// `amo` of 64 bits.
fn amo_doubleword(op: AmoOp, old: u64, b: u64) -> u64
    ensures { result ≡ amo_in op 64 old b }
{
    match op {
        AmoOp::Swap => b,
        AmoOp::Add => old.wrapping_add(b),
        AmoOp::Xor => old ^ b,
        AmoOp::And => old & b,
        AmoOp::Or => old | b,
        AmoOp::Min => old.cast_signed().min(b.cast_signed()).cast_unsigned(),
        AmoOp::Max => old.cast_signed().max(b.cast_signed()).cast_unsigned(),
        AmoOp::Minu => old.min(b),
        AmoOp::Maxu => old.max(b),
    }
}

// `amo` of 32 bits.
fn amo_word(op: AmoOp, old: u32, b: u32) -> u32
    ensures { result ≡ amo_in op 32 old b }
{
    match op {
        AmoOp::Swap => b,
        AmoOp::Add => old.wrapping_add(b),
        AmoOp::Xor => old ^ b,
        AmoOp::And => old & b,
        AmoOp::Or => old | b,
        AmoOp::Min => old.cast_signed().min(b.cast_signed()).cast_unsigned(),
        AmoOp::Max => old.cast_signed().max(b.cast_signed()).cast_unsigned(),
        AmoOp::Minu => old.min(b),
        AmoOp::Maxu => old.max(b),
    }
}

// The high 64 bits of a 128-bit product.
fn high_half(product: i128) -> u64
    ensures { result ≡ wrapped (shifted_right product 64) }
{
    (product.cast_unsigned() >> 64) as u64
}

// The quotient, rounded towards zero; all bits set where the divisor is 0.
fn signed_quotient(a: i64, b: i64) -> u64
    ensures { result ≡ wrapped (signed_quotient a b) }
{
    if b == 0 {
        return u64::MAX;
    }
    a.wrapping_div(b).cast_unsigned()
}

// The remainder, with the sign of the dividend; the dividend where the divisor is 0.
fn signed_remainder(a: i64, b: i64) -> u64
    ensures { result ≡ wrapped (signed_remainder a b) }
{
    if b == 0 {
        return a.cast_unsigned();
    }
    a.wrapping_rem(b).cast_unsigned()
}

// The unsigned quotient; all bits set where the divisor is 0.
fn word_quotient(a: u32, b: u32) -> u32
    ensures { result ≡ unsigned_quotient 32 a b }
{
    a.checked_div(b).unwrap_or(u32::MAX)
}

// The unsigned remainder; the dividend where the divisor is 0.
fn word_remainder(a: u32, b: u32) -> u32
    ensures { result ≡ unsigned_remainder a b }
{
    a.checked_rem(b).unwrap_or(a)
}

// The low 32 bits.
fn low_word(n: u64) -> u32
    ensures { result ≡ low_word n }
{
    (n % (1 << 32)) as u32
}

// The low 32 bits as a signed number.
fn signed_word(n: u64) -> i64
    ensures { result ≡ signed_word n }
{
    i64::from(low_word(n).cast_signed())
}

// The low 32 bits, sign-extended.
fn sign_extended(n: u64) -> u64
    ensures { result ≡ extended n }
{
    signed_word(n).cast_unsigned()
}
