//! Instructions that have no word, and the jump that a patch puts over a function.
use rv_alu::{AluOp, Cond};
use rv_encode::{encode, jump};
use rv_inst::Inst;

fn alu_imm(op: AluOp, imm: i64) -> Inst {
    Inst::AluImm {
        op,
        rd: 1,
        rs1: 2,
        imm,
    }
}

fn load(width: u8, signed: bool, off: i64) -> Inst {
    Inst::Load {
        width,
        signed,
        rd: 1,
        rs1: 2,
        off,
    }
}

fn branch(rs2: u8, off: i64) -> Inst {
    Inst::Branch {
        cond: Cond::Equal,
        rs1: 1,
        rs2,
        off,
    }
}

#[test]
fn no_word(rt: HostRuntime) {
    for inst in [
        alu_imm(AluOp::Sub, 0),
        alu_imm(AluOp::Mul, 0),
        alu_imm(AluOp::Add, 2048),
        alu_imm(AluOp::Add, -2049),
        alu_imm(AluOp::Sll, 64),
        alu_imm(AluOp::Sra, -1),
        alu_imm(AluOp::Srlw, 32),
        load(3, true, 0),
        load(8, false, 0),
        load(4, true, 2048),
        branch(32, 0),
        branch(2, 1),
        branch(2, 4096),
        branch(2, -4098),
        Inst::Store {
            width: 16,
            rs1: 1,
            rs2: 2,
            off: 0,
        },
        Inst::Lui { rd: 1, imm: 1 },
        Inst::Lui {
            rd: 1,
            imm: 0x8000_0000,
        },
        Inst::Jal {
            rd: 1,
            off: 1_048_576,
        },
        Inst::Jal { rd: 1, off: -1 },
        Inst::Fence { raw: 0x0000_100F },
        Inst::FenceI { raw: 0x0000_0033 },
    ] {
        assert_eq!(rt; encode(inst), None, "{inst:?}");
    }
}

#[test]
fn jumps(rt: HostRuntime) {
    for (from, to, bytes) in [
        // auipc x6, 16 and jalr x0, 0(x6)
        (
            0x1_0000,
            0x2_0000,
            Some([0x17, 0x03, 0x01, 0x00, 0x67, 0x00, 0x03, 0x00]),
        ),
        // auipc x6, 17 and jalr x0, -2048(x6)
        (
            0x1_0000,
            0x2_0800,
            Some([0x17, 0x13, 0x01, 0x00, 0x67, 0x00, 0x03, 0x80]),
        ),
        // auipc x6, -1 and jalr x0, 2046(x6)
        (
            0x1_0000,
            0xF7FE,
            Some([0x17, 0xF3, 0xFF, 0xFF, 0x67, 0x00, 0xE3, 0x7F]),
        ),
        // the farthest
        (
            0x1_0000,
            0x8000_F7FC,
            Some([0x17, 0xF3, 0xFF, 0x7F, 0x67, 0x00, 0xC3, 0x7F]),
        ),
        (0x1_0000, 0x8000_F800, None),
        (
            0x1_0000_0000,
            0x7FFF_F800,
            Some([0x17, 0x03, 0x00, 0x80, 0x67, 0x00, 0x03, 0x80]),
        ),
        (0x1_0000_0000, 0x7FFF_F7FE, None),
        // odd, and near only modulo 2^64
        (0x1_0000, 0x2_0001, None),
        (0xFFFF_FFFF_FFFF_F000, 0, None),
    ] {
        assert_eq!(rt; jump(from, to), bytes, "{from:x} {to:x}");
    }
}
