//! What an instruction wants.
ghost use Rattle.std.specs.Prelude.{◌≡◌};
ghost use Rattle.rv_inst.specs.Rows.{IsWidth};
ghost use Rattle.rv_inst.specs.Spelling.{IsSpelled};
ghost use Rattle.rv_inst.specs.Meanings as meanings;
ghost use Rattle.rv_inst.specs.Meanings.{want_of, to_jump, aligned};

use rv_alu::taken;
use rv_inst::causes::{
    BREAKPOINT, INSTRUCTION_ADDRESS_MISALIGNED, LOAD_ADDRESS_MISALIGNED, STORE_ADDRESS_MISALIGNED,
};
use rv_inst::{Arch, Inst, Want, accesses_have_widths};

/// What the instruction wants of memory or of the kernel, asked before it does anything.
///
/// A jump to a target that is no multiple of 4, and an access at an address that is no multiple of
/// its width, want a trap.
///
/// RISC-V unprivileged ISA, "RV64I Base Integer Instruction Set" and "A" Extension for Atomic
/// Instructions; privileged ISA, "Machine Cause Register".
pub fn plan(arch: &Arch, inst: Inst) -> Want
    requires { IsSpelled inst }
    ensures { result ≡ want_of inst arch.now }
{
    accesses_have_widths();
    match inst {
        Inst::Jal { off, .. } => jump(at_offset(arch.pc, off)),
        Inst::Jalr { rs1, off, .. } => jump(jalr_target(arch.x[rs1 as usize], off)),
        Inst::Branch {
            cond,
            rs1,
            rs2,
            off,
        } => {
            if taken(cond, arch.x[rs1 as usize], arch.x[rs2 as usize]) {
                jump(at_offset(arch.pc, off))
            } else {
                Want::Nothing
            }
        }
        Inst::Load {
            width,
            rs1,
            off,
            ..
        } => {
            let va = at_offset(arch.x[rs1 as usize], off);
            aligned_load(va, width, Want::Look { va, width })
        }
        Inst::Store {
            width,
            rs1,
            rs2,
            off,
        } => {
            let va = at_offset(arch.x[rs1 as usize], off);
            let value = arch.x[rs2 as usize];
            aligned_store(va, width, Want::Put { va, width, value })
        }
        Inst::Amo {
            op,
            wide,
            rs1,
            rs2,
            ..
        } => {
            let va = arch.x[rs1 as usize];
            let width = atomic_width(wide);
            let value = arch.x[rs2 as usize];
            aligned_store(
                va,
                width,
                Want::Swap {
                    va,
                    width,
                    op,
                    value,
                },
            )
        }
        Inst::Lr { wide, rs1, .. } => {
            let va = arch.x[rs1 as usize];
            let width = atomic_width(wide);
            aligned_load(va, width, Want::Reserve { va, width })
        }
        Inst::Sc { wide, rs1, rs2, .. } => {
            let va = arch.x[rs1 as usize];
            let width = atomic_width(wide);
            let value = arch.x[rs2 as usize];
            aligned_store(va, width, Want::PutIf { va, width, value })
        }
        Inst::Lui { .. } | Inst::Auipc { .. } => Want::Nothing,
        Inst::AluImm { .. } | Inst::Alu { .. } => Want::Nothing,
        Inst::Fence { .. } | Inst::FenceI { .. } => Want::Nothing,
        Inst::Ecall => Want::Call,
        Inst::Ebreak => Want::Trap {
            cause: BREAKPOINT,
            value: arch.pc,
        },
    }
}

// The address at an offset, modulo 2^64.
pub fn at_offset(base: u64, off: i64) -> u64
    ensures { result ≡ meanings.at_offset base off }
{
    base.wrapping_add(off.cast_unsigned())
}

// The target of a jalr, with bit 0 cleared.
pub fn jalr_target(base: u64, off: i64) -> u64
    ensures { result ≡ meanings.jalr_target base off }
{
    let target = at_offset(base, off);
    target - target % 2
}

// The bytes of an atomic operation.
pub fn atomic_width(wide: bool) -> u8
    ensures { result ≡ meanings.atomic_width wide }
{
    if wide { 8 } else { 4 }
}

// A jump to this target.
fn jump(target: u64) -> Want
    ensures { result ≡ to_jump target }
{
    if target % 4 == 0 {
        Want::Nothing
    } else {
        Want::Trap {
            cause: INSTRUCTION_ADDRESS_MISALIGNED,
            value: target,
        }
    }
}

// What a load or a load-reserved wants, or its trap.
fn aligned_load(va: u64, width: u8, want: Want) -> Want
    requires { IsWidth width }
    ensures { result ≡ aligned va width LOAD_ADDRESS_MISALIGNED want }
{
    aligned(va, width, LOAD_ADDRESS_MISALIGNED, want)
}

// What a store, a store-conditional or an atomic memory operation wants, or its trap.
fn aligned_store(va: u64, width: u8, want: Want) -> Want
    requires { IsWidth width }
    ensures { result ≡ aligned va width STORE_ADDRESS_MISALIGNED want }
{
    aligned(va, width, STORE_ADDRESS_MISALIGNED, want)
}

// What an access wants, or its trap.
fn aligned(va: u64, width: u8, cause: u8, want: Want) -> Want
    requires { IsWidth width }
    ensures { result ≡ aligned va width cause want }
{
    if va % u64::from(width) == 0 {
        want
    } else {
        Want::Trap { cause, value: va }
    }
}
