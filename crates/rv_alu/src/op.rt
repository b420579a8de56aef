//! The operations and the conditions.

/// An operation on two 64-bit numbers. An instruction with an immediate has that of its register
/// form.
///
/// RISC-V unprivileged ISA, "Integer Computational Instructions", and "M" Extension for Integer
/// Multiplication and Division.
#[derive(Clone, Copy, Debug, PartialEq, Eq)]
pub enum AluOp {
    /// `add`: the sum modulo 2^64.
    Add,
    /// `sub`: the difference modulo 2^64.
    Sub,
    /// `sll`: a shift to the left, by the low 6 bits of the second number.
    Sll,
    /// `slt`: 1 where the first number is less, both signed, and 0 otherwise.
    Slt,
    /// `sltu`: 1 where the first number is less, both unsigned, and 0 otherwise.
    Sltu,
    /// `xor`, bit by bit.
    Xor,
    /// `srl`: a shift to the right that brings in zeros, by the low 6 bits of the second number.
    Srl,
    /// `sra`: a shift to the right that brings in the sign, by the low 6 bits of the second number.
    Sra,
    /// `or`, bit by bit.
    Or,
    /// `and`, bit by bit.
    And,
    /// `addw`: the low 32 bits of the sum, sign-extended.
    Addw,
    /// `subw`: the low 32 bits of the difference, sign-extended.
    Subw,
    /// `sllw`: `sll` of the low 32 bits, by the low 5 bits of the second number, sign-extended.
    Sllw,
    /// `srlw`: `srl` of the low 32 bits, by the low 5 bits of the second number, sign-extended.
    Srlw,
    /// `sraw`: `sra` of the low 32 bits, by the low 5 bits of the second number, sign-extended.
    Sraw,
    /// `mul`: the low 64 bits of the product.
    Mul,
    /// `mulh`: the high 64 bits of the product, both signed.
    Mulh,
    /// `mulhsu`: the high 64 bits of the product, the first signed and the second unsigned.
    Mulhsu,
    /// `mulhu`: the high 64 bits of the product, both unsigned.
    Mulhu,
    /// `div`: the quotient, both signed, rounded towards zero; -1 where the divisor is 0.
    Div,
    /// `divu`: the quotient, both unsigned; 2^64 - 1 where the divisor is 0.
    Divu,
    /// `rem`: the remainder that goes with `div`, with the sign of the dividend; the dividend where
    /// the divisor is 0.
    Rem,
    /// `remu`: the remainder that goes with `divu`; the dividend where the divisor is 0.
    Remu,
    /// `mulw`: the low 32 bits of the product, sign-extended.
    Mulw,
    /// `divw`: `div` of the low 32 bits, sign-extended.
    Divw,
    /// `divuw`: `divu` of the low 32 bits, sign-extended.
    Divuw,
    /// `remw`: `rem` of the low 32 bits, sign-extended.
    Remw,
    /// `remuw`: `remu` of the low 32 bits, sign-extended.
    Remuw,
}

/// What an atomic memory operation makes of the number in memory and that of a register.
///
/// RISC-V unprivileged ISA, "Atomic Memory Operations".
#[derive(Clone, Copy, Debug, PartialEq, Eq)]
pub enum AmoOp {
    /// `amoswap`: the register's.
    Swap,
    /// `amoadd`: the sum.
    Add,
    /// `amoxor`, bit by bit.
    Xor,
    /// `amoand`, bit by bit.
    And,
    /// `amoor`, bit by bit.
    Or,
    /// `amomin`: the lesser, both signed.
    Min,
    /// `amomax`: the greater, both signed.
    Max,
    /// `amominu`: the lesser, both unsigned.
    Minu,
    /// `amomaxu`: the greater, both unsigned.
    Maxu,
}

/// The condition of a branch, on two 64-bit numbers.
///
/// RISC-V unprivileged ISA, "Conditional Branches".
#[derive(Clone, Copy, Debug, PartialEq, Eq)]
pub enum Cond {
    /// `beq`: the numbers are equal.
    Equal,
    /// `bne`: they differ.
    NotEqual,
    /// `blt`: the first is less, both signed.
    Less,
    /// `bge`: the first is the second or greater, both signed.
    GreaterOrEqual,
    /// `bltu`: the first is less, both unsigned.
    LessUnsigned,
    /// `bgeu`: the first is the second or greater, both unsigned.
    GreaterOrEqualUnsigned,
}
