//! The instructions.
use rv_alu::{AluOp, AmoOp, Cond};

/// An instruction of RV64IMA and Zifencei.
///
/// Registers are 0 to 31. `rd` is written, `rs1` and `rs2` are read. Widths count bytes. Immediates
/// and offsets are the sign-extended numbers. `wide` is true of a 64-bit operation on memory; `aq`
/// and `rl` are the bits that order it before what follows and after what went before.
///
/// RISC-V unprivileged ISA, "RV32/64G Instruction Set Listings".
#[derive(Clone, Copy, Debug, PartialEq, Eq)]
pub enum Inst {
    /// `lui`: the immediate, a multiple of 4,096.
    ///
    /// RISC-V unprivileged ISA, "Integer Register-Immediate Instructions".
    Lui {
        rd: u8,
        imm: i64,
    },
    /// `auipc`: the immediate, a multiple of 4,096, and the pc.
    ///
    /// RISC-V unprivileged ISA, "Integer Register-Immediate Instructions".
    Auipc {
        rd: u8,
        imm: i64,
    },
    /// `jal`: a jump by an offset, and the address behind it.
    ///
    /// RISC-V unprivileged ISA, "Unconditional Jumps".
    Jal {
        rd: u8,
        off: i64,
    },
    /// `jalr`: a jump to a register and an offset, and the address behind it.
    ///
    /// RISC-V unprivileged ISA, "Unconditional Jumps".
    Jalr {
        rd: u8,
        rs1: u8,
        off: i64,
    },
    /// A branch by an offset, as `beq`.
    ///
    /// RISC-V unprivileged ISA, "Conditional Branches".
    Branch {
        cond: Cond,
        rs1: u8,
        rs2: u8,
        off: i64,
    },
    /// A load, as `lbu`, of 1, 2, 4 or 8 bytes, which are sign-extended where `signed` is true, as
    /// it is of `ld`.
    ///
    /// RISC-V unprivileged ISA, "Load and Store Instructions".
    Load {
        width: u8,
        signed: bool,
        rd: u8,
        rs1: u8,
        off: i64,
    },
    /// A store, as `sd`, of the low 1, 2, 4 or 8 bytes of `rs2`.
    ///
    /// RISC-V unprivileged ISA, "Load and Store Instructions".
    Store {
        width: u8,
        rs1: u8,
        rs2: u8,
        off: i64,
    },
    /// An operation on a register and an immediate, as `addi`.
    ///
    /// RISC-V unprivileged ISA, "Integer Register-Immediate Instructions".
    AluImm {
        op: AluOp,
        rd: u8,
        rs1: u8,
        imm: i64,
    },
    /// An operation on two registers, as `add`.
    ///
    /// RISC-V unprivileged ISA, "Integer Register-Register Operations".
    Alu {
        op: AluOp,
        rd: u8,
        rs1: u8,
        rs2: u8,
    },
    /// An atomic memory operation, as `amoadd.w`, at the address in `rs1`.
    ///
    /// RISC-V unprivileged ISA, "Atomic Memory Operations".
    Amo {
        op: AmoOp,
        wide: bool,
        aq: bool,
        rl: bool,
        rd: u8,
        rs1: u8,
        rs2: u8,
    },
    /// `lr`, at the address in `rs1`.
    ///
    /// RISC-V unprivileged ISA, "Load-Reserved/Store-Conditional Instructions".
    Lr {
        wide: bool,
        aq: bool,
        rl: bool,
        rd: u8,
        rs1: u8,
    },
    /// `sc`, of `rs2` at the address in `rs1`.
    ///
    /// RISC-V unprivileged ISA, "Load-Reserved/Store-Conditional Instructions".
    Sc {
        wide: bool,
        aq: bool,
        rl: bool,
        rd: u8,
        rs1: u8,
        rs2: u8,
    },
    /// `fence`, whose whole word is `raw`: its other fields are not looked at.
    ///
    /// RISC-V unprivileged ISA, "Memory Ordering Instructions".
    Fence {
        raw: u32,
    },
    /// `fence.i`, whose whole word is `raw`: its other fields are not looked at.
    ///
    /// RISC-V unprivileged ISA, "Zifencei" Extension for Instruction-Fetch Fence.
    FenceI {
        raw: u32,
    },
    /// `ecall`, a call of the kernel.
    ///
    /// RISC-V unprivileged ISA, "Environment Call and Breakpoints".
    Ecall,
    /// `ebreak`.
    ///
    /// RISC-V unprivileged ISA, "Environment Call and Breakpoints".
    Ebreak,
}
