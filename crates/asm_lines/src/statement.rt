//! What a line asks for.
use rv_alu::Cond;
use rv_inst::Inst;

/// A section of the program: code, constants, variables, and variables that begin as zeros.
#[derive(Clone, Copy, Debug, PartialEq, Eq)]
pub enum SectionId {
    /// `.text`
    Text,
    /// `.rodata`
    Rodata,
    /// `.data`
    Data,
    /// `.bss`
    Bss,
}

/// What a statement does with a name.
#[derive(Clone, Copy, Debug, PartialEq, Eq)]
pub enum Use {
    /// `.globl NAME`: other files see the label.
    Globl,
    /// `.size NAME`: the label's size is the distance from it to here.
    Size,
    /// `.word NAME` and `.dword NAME`: so many bytes with the label's address and an addend.
    Address { width: u8, addend: i128 },
    /// A branch to the label.
    Branch { cond: Cond, rs1: u8, rs2: u8 },
    /// `jal` and `j`: a jump to the label.
    Jal { rd: u8 },
    /// `call`: a jump to the label by `auipc` and `jalr`.
    Call,
    /// `la`: the label's address by `auipc` and `addi`.
    La { rd: u8 },
}

/// What a line asks for, before any name is known. Numbers are as written, and at most 2^66 in
/// size.
#[derive(Drop)]
pub enum Statement<'a> {
    /// Nothing.
    Empty,
    /// The next statements belong to this section.
    Section(SectionId),
    /// `.align N`: fill up to a multiple of 2^N, N from 0 to 12.
    Align(u8),
    /// `.zero N`: so many zero bytes.
    Zero(u128),
    /// `.byte`, `.half`, `.word` and `.dword` of a number, in so many bytes.
    Number { width: u8, value: i128 },
    /// `.hex`: bytes, as hexadecimal digits.
    Hex(&'a [u8]),
    /// `.ascii`: bytes.
    Ascii(&'a [u8]),
    /// `li`: a number into a register.
    Li { rd: u8, value: i128 },
    /// An instruction without a name.
    Plain(Inst),
    /// What needs a name.
    Named(Use, &'a [u8]),
}
