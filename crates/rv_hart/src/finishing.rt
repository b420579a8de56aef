//! What an instruction leaves.
ghost use Rattle.std.specs.Prelude.{◌≡◌, ◌≢◌, ◌<◌, ℕ};
ghost use Rattle.rv_inst.specs.Rows.{IsWidth};
ghost use Rattle.rv_inst.specs.Spelling.{IsSpelled};
ghost use Rattle.rv_inst.specs.Meanings as meanings;
ghost use Rattle.rv_inst.specs.Meanings.{want_of, meaning_of, next_pc, written, with_written, called};

use crate::planning::{at_offset, atomic_width, jalr_target};
use rv_alu::{alu, taken};
use rv_inst::{Arch, Inst, Want, accesses_have_widths};

/// Leaves in `arch` the pc and registers after the instruction, which is no call of the kernel and
/// no trap.
///
/// `got` is what the instruction read from memory, not extended: its low bytes are taken. For a
/// store-conditional it is 0 where it stored, and 1 where it missed. It is not looked at for other
/// instructions. The next pc is modulo 2^64, and a write to x0 is dropped.
///
/// RISC-V unprivileged ISA, "RV64I Base Integer Instruction Set", "M" Extension for Integer
/// Multiplication and Division, and "A" Extension for Atomic Instructions.
pub fn finish(arch: &mut Arch, inst: Inst, got: u64)
    requires spelled { IsSpelled inst }
    requires own { want_of inst arch.old ≢ Want.Call }
    requires no_trap { (cause value : ℕ) → want_of inst arch.old ≢ Want.Trap cause value }
    ensures { arch.new ≡ meaning_of inst arch.old got }
{
    accesses_have_widths();
    match inst {
        Inst::Lui { rd, imm } => write(arch, rd, imm.cast_unsigned()),
        Inst::Auipc { rd, imm } => write(arch, rd, at_offset(arch.pc, imm)),
        Inst::Jal { rd, off } => jump_and_link(arch, rd, at_offset(arch.pc, off)),
        Inst::Jalr { rd, rs1, off } => jump_and_link(
            arch,
            rd,
            jalr_target(arch.x[rs1 as usize], off),
        ),
        Inst::Branch {
            cond,
            rs1,
            rs2,
            off,
        } => {
            if taken(cond, arch.x[rs1 as usize], arch.x[rs2 as usize]) {
                arch.pc = at_offset(arch.pc, off);
            } else {
                pass(arch);
            }
        }
        Inst::Load {
            width,
            signed,
            rd,
            ..
        } => write(arch, rd, loaded(width, signed, got)),
        Inst::AluImm { op, rd, rs1, imm } => {
            write(arch, rd, alu(op, arch.x[rs1 as usize], imm.cast_unsigned()));
        }
        Inst::Alu { op, rd, rs1, rs2 } => {
            write(
                arch,
                rd,
                alu(op, arch.x[rs1 as usize], arch.x[rs2 as usize]),
            );
        }
        Inst::Amo { wide, rd, .. } => write(arch, rd, loaded(atomic_width(wide), true, got)),
        Inst::Lr { wide, rd, .. } => write(arch, rd, loaded(atomic_width(wide), true, got)),
        Inst::Sc { rd, .. } => write(arch, rd, got),
        Inst::Store { .. } | Inst::Fence { .. } | Inst::FenceI { .. } => pass(arch),
        Inst::Ecall | Inst::Ebreak => {}
    }
}

/// Leaves in `arch` the pc and registers after a call of the kernel with this answer: a0, which is
/// x10, is the answer, and the pc goes on by 4, modulo 2^64.
///
/// RISC-V unprivileged ISA, "Environment Call and Breakpoints"; RISC-V ELF psABI, "Integer Register
/// Convention".
pub fn finish_call(arch: &mut Arch, a0: u64)
    ensures { arch.new ≡ called arch.old a0 }
{
    arch.x[10] = a0;
    arch.pc = arch.pc.wrapping_add(4);
}

// On to the next instruction.
fn pass(arch: &mut Arch)
    ensures { arch.new ≡ record { pc = next_pc arch.old.pc; x = arch.old.x } }
{
    arch.pc = arch.pc.wrapping_add(4);
}

// A register is written, unless it is x0.
fn set(arch: &mut Arch, rd: u8, value: u64)
    requires { rd < 32 }
    ensures { arch.new ≡ record { pc = arch.old.pc; x = written arch.old.x rd value } }
{
    if rd != 0 {
        arch.x[rd as usize] = value;
    }
}

// On to the next instruction, with a register written.
fn write(arch: &mut Arch, rd: u8, value: u64)
    requires { rd < 32 }
    ensures { arch.new ≡ with_written arch.old rd value }
{
    set(arch, rd, value);
    pass(arch);
}

// To a target, with the address of the next instruction in a register.
fn jump_and_link(arch: &mut Arch, rd: u8, target: u64)
    requires { rd < 32 }
    ensures { arch.new ≡ meanings.jump_and_link arch.old rd target }
{
    set(arch, rd, arch.pc.wrapping_add(4));
    arch.pc = target;
}

// The low bytes of what was read, extended.
fn loaded(width: u8, signed: bool, got: u64) -> u64
    requires { IsWidth width }
    ensures { result ≡ meanings.loaded width signed got }
{
    match (width, signed) {
        (1, true) => i64::from(((got % (1 << 8)) as u8).cast_signed()).cast_unsigned(),
        (1, false) => got % (1 << 8),
        (2, true) => i64::from(((got % (1 << 16)) as u16).cast_signed()).cast_unsigned(),
        (2, false) => got % (1 << 16),
        (4, true) => i64::from(((got % (1 << 32)) as u32).cast_signed()).cast_unsigned(),
        (4, false) => got % (1 << 32),
        _ => got,
    }
}
