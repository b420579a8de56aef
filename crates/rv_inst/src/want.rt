//! What an instruction wants.
use rv_alu::AmoOp;

/// What an instruction wants beyond the pc and the registers of its hart. An access has its
/// address, which is a multiple of its width of 1, 2, 4 or 8 bytes; `value` is the whole register.
#[derive(Clone, Copy, Debug, PartialEq, Eq)]
pub enum Want {
    /// Nothing.
    Nothing,
    /// A load.
    ///
    /// RISC-V unprivileged ISA, "Load and Store Instructions".
    Look {
        va: u64,
        width: u8,
    },
    /// A store of the low bytes of a value.
    ///
    /// RISC-V unprivileged ISA, "Load and Store Instructions".
    Put {
        va: u64,
        width: u8,
        value: u64,
    },
    /// An atomic memory operation with a value.
    ///
    /// RISC-V unprivileged ISA, "Atomic Memory Operations".
    Swap {
        va: u64,
        width: u8,
        op: AmoOp,
        value: u64,
    },
    /// A load-reserved.
    ///
    /// RISC-V unprivileged ISA, "Load-Reserved/Store-Conditional Instructions".
    Reserve {
        va: u64,
        width: u8,
    },
    /// A store-conditional of the low bytes of a value.
    ///
    /// RISC-V unprivileged ISA, "Load-Reserved/Store-Conditional Instructions".
    PutIf {
        va: u64,
        width: u8,
        value: u64,
    },
    /// A call of the kernel.
    ///
    /// RISC-V unprivileged ISA, "Environment Call and Breakpoints".
    Call,
    /// To stop with a trap, with its cause, one of [`causes`](crate::causes), and its value.
    ///
    /// RISC-V privileged ISA, "Machine Cause Register".
    Trap {
        cause: u8,
        value: u64,
    },
}
