//! The text of an instruction.
ghost use Rattle.std.specs.Prelude.{◌≡◌, ◌/◌, ◌^◌, Some, IfOk};
ghost use Rattle.rv_inst.specs.Spelling.{IsSpelled, low_bits};
ghost use Rattle.rv_encode.specs.Texts as texts;

use rv_alu::{AluOp, AmoOp, Cond};
use rv_inst::Inst;
use std::alloc::Global;
use std::fmt;
use wf_outside::{Memory, Text};

/// The text of an instruction that some word is, as `addi x10, x0, 7`: its mnemonic, a space, and
/// its operands joined by `, `. Numbers are decimal; `lui` and `auipc` show bits 31 to 12 as an
/// unsigned number.
///
/// RISC-V unprivileged ISA, "RISC-V Assembly Programmer's Handbook".
pub fn dis(alloc: Global, inst: Inst) -> Result<Text, Memory>
    requires { IsSpelled inst }
    ensures { IfOk result (λ text. text ≡ texts.inst_text inst) }
{
    let line = format!(in alloc; "{}", InstText(inst))?;
    Ok(Text::from(line.into_bytes()))
}

// What an atomic instruction adds to its name, as `.w.aq`.
#[derive(Clone, Copy)]
struct AtomicSuffix {
    wide: bool,
    aq: bool,
    rl: bool,
}

impl fmt::Display for AtomicSuffix {
    ghost output = { λ s. Some (texts.atomic_suffix s.wide s.aq s.rl) };

    fn fmt<W: fmt::Write>(&self, f: &mut fmt::Formatter<W>) -> fmt::Result {
        let width = if self.wide { ".d" } else { ".w" };
        let order = match (self.aq, self.rl) {
            (false, false) => "",
            (true, false) => ".aq",
            (false, true) => ".rl",
            (true, true) => ".aqrl",
        };
        write!(f, "{width}{order}")
    }
}

// The whole text.
#[derive(Clone, Copy)]
struct InstText(Inst);

impl fmt::Display for InstText {
    ghost output = { λ x. Some (texts.inst_text x.0) };

    fn fmt<W: fmt::Write>(&self, f: &mut fmt::Formatter<W>) -> fmt::Result {
        match self.0 {
            Inst::Lui { rd, imm } => write!(f, "lui x{rd}, {}", upper(imm)),
            Inst::Auipc { rd, imm } => write!(f, "auipc x{rd}, {}", upper(imm)),
            Inst::Jal { rd, off } => write!(f, "jal x{rd}, {off}"),
            Inst::Jalr { rd, rs1, off } => write!(f, "jalr x{rd}, {off}(x{rs1})"),
            Inst::Branch {
                cond,
                rs1,
                rs2,
                off,
            } => {
                let name = branch_name(cond);
                write!(f, "{name} x{rs1}, x{rs2}, {off}")
            }
            Inst::Load {
                width,
                signed: true,
                rd,
                rs1,
                off,
            } => {
                let size = width_letter(width);
                write!(f, "l{size} x{rd}, {off}(x{rs1})")
            }
            Inst::Load {
                width,
                signed: false,
                rd,
                rs1,
                off,
            } => {
                let size = width_letter(width);
                write!(f, "l{size}u x{rd}, {off}(x{rs1})")
            }
            Inst::Store {
                width,
                rs1,
                rs2,
                off,
            } => {
                let size = width_letter(width);
                write!(f, "s{size} x{rs2}, {off}(x{rs1})")
            }
            Inst::AluImm { op, rd, rs1, imm } => {
                let name = imm_name(op);
                write!(f, "{name} x{rd}, x{rs1}, {imm}")
            }
            Inst::Alu { op, rd, rs1, rs2 } => {
                let name = alu_name(op);
                write!(f, "{name} x{rd}, x{rs1}, x{rs2}")
            }
            Inst::Amo {
                op,
                wide,
                aq,
                rl,
                rd,
                rs1,
                rs2,
            } => {
                let name = amo_name(op);
                let suffix = AtomicSuffix { wide, aq, rl };
                write!(f, "{name}{suffix} x{rd}, x{rs2}, (x{rs1})")
            }
            Inst::Lr {
                wide,
                aq,
                rl,
                rd,
                rs1,
            } => {
                let suffix = AtomicSuffix { wide, aq, rl };
                write!(f, "lr{suffix} x{rd}, (x{rs1})")
            }
            Inst::Sc {
                wide,
                aq,
                rl,
                rd,
                rs1,
                rs2,
            } => {
                let suffix = AtomicSuffix { wide, aq, rl };
                write!(f, "sc{suffix} x{rd}, x{rs2}, (x{rs1})")
            }
            Inst::Fence { .. } => write!(f, "fence"),
            Inst::FenceI { .. } => write!(f, "fence.i"),
            Inst::Ecall => write!(f, "ecall"),
            Inst::Ebreak => write!(f, "ebreak"),
        }
    }
}

fn upper(imm: i64) -> u64
    ensures { result ≡ low_bits 32 imm / 2 ^ 12 }
{
    imm.cast_unsigned() % (1 << 32) / (1 << 12)
}

/// The mnemonic of a branch.
///
/// RISC-V unprivileged ISA, "RV32/64G Instruction Set Listings".
pub fn branch_name(cond: Cond) -> &'static str
    ensures { result.now ≡ texts.branch_name cond }
{
    match cond {
        Cond::Equal => "beq",
        Cond::NotEqual => "bne",
        Cond::Less => "blt",
        Cond::GreaterOrEqual => "bge",
        Cond::LessUnsigned => "bltu",
        Cond::GreaterOrEqualUnsigned => "bgeu",
    }
}

fn width_letter(width: u8) -> &'static str
    ensures { result.now ≡ texts.width_letter width }
{
    match width {
        1 => "b",
        2 => "h",
        4 => "w",
        8 => "d",
        _ => "",
    }
}

/// The mnemonic of an operation on two registers.
///
/// RISC-V unprivileged ISA, "RV32/64G Instruction Set Listings".
pub fn alu_name(op: AluOp) -> &'static str
    ensures { result.now ≡ texts.alu_name op }
{
    match op {
        AluOp::Add => "add",
        AluOp::Sub => "sub",
        AluOp::Sll => "sll",
        AluOp::Slt => "slt",
        AluOp::Sltu => "sltu",
        AluOp::Xor => "xor",
        AluOp::Srl => "srl",
        AluOp::Sra => "sra",
        AluOp::Or => "or",
        AluOp::And => "and",
        AluOp::Addw => "addw",
        AluOp::Subw => "subw",
        AluOp::Sllw => "sllw",
        AluOp::Srlw => "srlw",
        AluOp::Sraw => "sraw",
        AluOp::Mul => "mul",
        AluOp::Mulh => "mulh",
        AluOp::Mulhsu => "mulhsu",
        AluOp::Mulhu => "mulhu",
        AluOp::Div => "div",
        AluOp::Divu => "divu",
        AluOp::Rem => "rem",
        AluOp::Remu => "remu",
        AluOp::Mulw => "mulw",
        AluOp::Divw => "divw",
        AluOp::Divuw => "divuw",
        AluOp::Remw => "remw",
        AluOp::Remuw => "remuw",
    }
}

/// The mnemonic of an operation on a register and an immediate; empty where there is none.
///
/// RISC-V unprivileged ISA, "RV32/64G Instruction Set Listings".
pub fn imm_name(op: AluOp) -> &'static str
    ensures { result.now ≡ texts.imm_name op }
{
    match op {
        AluOp::Add => "addi",
        AluOp::Sll => "slli",
        AluOp::Slt => "slti",
        AluOp::Sltu => "sltiu",
        AluOp::Xor => "xori",
        AluOp::Srl => "srli",
        AluOp::Sra => "srai",
        AluOp::Or => "ori",
        AluOp::And => "andi",
        AluOp::Addw => "addiw",
        AluOp::Sllw => "slliw",
        AluOp::Srlw => "srliw",
        AluOp::Sraw => "sraiw",
        _ => "",
    }
}

/// The mnemonic of an atomic memory operation, without its width and order.
///
/// RISC-V unprivileged ISA, "RV32/64G Instruction Set Listings".
pub fn amo_name(op: AmoOp) -> &'static str
    ensures { result.now ≡ texts.amo_name op }
{
    match op {
        AmoOp::Swap => "amoswap",
        AmoOp::Add => "amoadd",
        AmoOp::Xor => "amoxor",
        AmoOp::And => "amoand",
        AmoOp::Or => "amoor",
        AmoOp::Min => "amomin",
        AmoOp::Max => "amomax",
        AmoOp::Minu => "amominu",
        AmoOp::Maxu => "amomaxu",
    }
}
