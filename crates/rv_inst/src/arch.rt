//! The registers of a hart.
use std::marker::Model;

/// The pc and the registers of a hart, 64 bits each.
///
/// Register x0 is 0 in every value.
///
/// RISC-V unprivileged ISA, "Programmers' Model for Base Integer ISA".
#[derive(Clone, Copy, Debug, PartialEq, Eq)]
pub struct Arch {
    /// The address of the instruction, in bytes.
    pub pc: u64,
    /// The registers x0 to x31.
    pub x: [u64; 32],
}

impl Model for Arch {
    ghost use Rattle.rv_inst.specs.Arch.{ArchState, IsArch};

    ghost Value = { ArchState };

    ghost view = { λ a. record { pc = a.pc; x = a.x } };

    ghost invariant = { λ a. IsArch a.x };

    ghost inverse = { λ a. record { pc = a.pc; x = a.x } };
}
