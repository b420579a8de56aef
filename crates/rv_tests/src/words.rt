//! Words and texts of instructions as another assembler, llvm-mc, pairs them, and words that it has
//! no instruction for.
use rv_encode::{dis, encode};
use rv_inst::decode;
use std::alloc::Global;
use std::process::Abort;
use std::test::Fail;

// Upper immediates, jumps and branches.
const JUMPS: [(u32, &str); 41] = [
    (0x8000_0FB7, "lui x31, 524288"),
    (0xFFFF_F0B7, "lui x1, 1048575"),
    (0x0000_00B7, "lui x1, 0"),
    (0x7FFF_F0B7, "lui x1, 524287"),
    (0x0001_20B7, "lui x1, 18"),
    (0x7FFF_FFB7, "lui x31, 524287"),
    (0x8000_0037, "lui x0, 524288"),
    (0x8000_0317, "auipc x6, 524288"),
    (0x0001_0317, "auipc x6, 16"),
    (0xFFFF_F317, "auipc x6, 1048575"),
    (0x8000_00EF, "jal x1, -1048576"),
    (0xFFFF_F0EF, "jal x1, -2"),
    (0x0000_00EF, "jal x1, 0"),
    (0x0020_00EF, "jal x1, 2"),
    (0x0010_00EF, "jal x1, 2048"),
    (0x7FFF_F0EF, "jal x1, 1048574"),
    (0xFFFF_F06F, "jal x0, -2"),
    (0x7FFF_FFEF, "jal x31, 1048574"),
    (0x8003_00E7, "jalr x1, -2048(x6)"),
    (0xFFF3_00E7, "jalr x1, -1(x6)"),
    (0x0003_00E7, "jalr x1, 0(x6)"),
    (0x7FF3_00E7, "jalr x1, 2047(x6)"),
    (0xFFC3_0067, "jalr x0, -4(x6)"),
    (0x7FF0_0FE7, "jalr x31, 2047(x0)"),
    (0x0020_8863, "beq x1, x2, 16"),
    (0x81FF_0063, "beq x30, x31, -4096"),
    (0xFFFF_0FE3, "beq x30, x31, -2"),
    (0x01FF_0063, "beq x30, x31, 0"),
    (0x01FF_0163, "beq x30, x31, 2"),
    (0x01FF_00E3, "beq x30, x31, 2048"),
    (0x7FFF_0FE3, "beq x30, x31, 4094"),
    (0x8020_8063, "beq x1, x2, -4096"),
    (0x0020_9863, "bne x1, x2, 16"),
    (0xFE0F_9FE3, "bne x31, x0, -2"),
    (0x0020_C863, "blt x1, x2, 16"),
    (0x01F0_4063, "blt x0, x31, 0"),
    (0x0020_D863, "bge x1, x2, 16"),
    (0x0020_D0E3, "bge x1, x2, 2048"),
    (0x0020_E863, "bltu x1, x2, 16"),
    (0x0020_F863, "bgeu x1, x2, 16"),
    (0x7E20_FFE3, "bgeu x1, x2, 4094"),
];

// Loads and stores.
const LOADS_AND_STORES: [(u32, &str); 32] = [
    (0xFFC2_0183, "lb x3, -4(x4)"),
    (0x8001_0083, "lb x1, -2048(x2)"),
    (0xFFC2_1183, "lh x3, -4(x4)"),
    (0xFFF1_1083, "lh x1, -1(x2)"),
    (0xFFC2_2183, "lw x3, -4(x4)"),
    (0x0001_2083, "lw x1, 0(x2)"),
    (0xFFC2_3183, "ld x3, -4(x4)"),
    (0x8002_3183, "ld x3, -2048(x4)"),
    (0xFFF2_3183, "ld x3, -1(x4)"),
    (0x0002_3183, "ld x3, 0(x4)"),
    (0x7FF2_3183, "ld x3, 2047(x4)"),
    (0x7FF0_3F83, "ld x31, 2047(x0)"),
    (0xFFC2_4183, "lbu x3, -4(x4)"),
    (0x001F_C003, "lbu x0, 1(x31)"),
    (0xFFC2_5183, "lhu x3, -4(x4)"),
    (0x0021_5083, "lhu x1, 2(x2)"),
    (0xFFC2_6183, "lwu x3, -4(x4)"),
    (0x0041_6083, "lwu x1, 4(x2)"),
    (0xFE32_0E23, "sb x3, -4(x4)"),
    (0x8031_0023, "sb x3, -2048(x2)"),
    (0xFE32_1E23, "sh x3, -4(x4)"),
    (0xFFF0_1FA3, "sh x31, -1(x0)"),
    (0xFE32_2E23, "sw x3, -4(x4)"),
    (0x000F_A023, "sw x0, 0(x31)"),
    (0xFE32_3E23, "sd x3, -4(x4)"),
    (0x8032_3023, "sd x3, -2048(x4)"),
    (0xFE32_3FA3, "sd x3, -1(x4)"),
    (0x0032_3023, "sd x3, 0(x4)"),
    (0x0032_3FA3, "sd x3, 31(x4)"),
    (0x0232_3023, "sd x3, 32(x4)"),
    (0x7E32_3FA3, "sd x3, 2047(x4)"),
    (0x7E31_3FA3, "sd x3, 2047(x2)"),
];

// Operations on a register and an immediate.
const IMMEDIATES: [(u32, &str); 40] = [
    (0xFFD3_0293, "addi x5, x6, -3"),
    (0x8003_0293, "addi x5, x6, -2048"),
    (0xFFF3_0293, "addi x5, x6, -1"),
    (0x0003_0293, "addi x5, x6, 0"),
    (0x7FF3_0293, "addi x5, x6, 2047"),
    (0x0070_0513, "addi x10, x0, 7"),
    (0x8000_8F93, "addi x31, x1, -2048"),
    (0xFFD3_2293, "slti x5, x6, -3"),
    (0xFFD3_3293, "sltiu x5, x6, -3"),
    (0xFFF1_3093, "sltiu x1, x2, -1"),
    (0xFFD3_4293, "xori x5, x6, -3"),
    (0xFFD3_6293, "ori x5, x6, -3"),
    (0xFFD3_7293, "andi x5, x6, -3"),
    (0x7FF1_7093, "andi x1, x2, 2047"),
    (0xFFD3_029B, "addiw x5, x6, -3"),
    (0x0001_009B, "addiw x1, x2, 0"),
    (0x0003_1293, "slli x5, x6, 0"),
    (0x0013_1293, "slli x5, x6, 1"),
    (0x01F3_1293, "slli x5, x6, 31"),
    (0x0203_1293, "slli x5, x6, 32"),
    (0x03F3_1293, "slli x5, x6, 63"),
    (0x03F1_1093, "slli x1, x2, 63"),
    (0x0003_5293, "srli x5, x6, 0"),
    (0x0013_5293, "srli x5, x6, 1"),
    (0x01F3_5293, "srli x5, x6, 31"),
    (0x0203_5293, "srli x5, x6, 32"),
    (0x03F3_5293, "srli x5, x6, 63"),
    (0x4003_5293, "srai x5, x6, 0"),
    (0x4013_5293, "srai x5, x6, 1"),
    (0x41F3_5293, "srai x5, x6, 31"),
    (0x4203_5293, "srai x5, x6, 32"),
    (0x43F3_5293, "srai x5, x6, 63"),
    (0x4201_5093, "srai x1, x2, 32"),
    (0x0003_129B, "slliw x5, x6, 0"),
    (0x01F3_129B, "slliw x5, x6, 31"),
    (0x0003_529B, "srliw x5, x6, 0"),
    (0x01F3_529B, "srliw x5, x6, 31"),
    (0x4003_529B, "sraiw x5, x6, 0"),
    (0x41F3_529B, "sraiw x5, x6, 31"),
    (0x41F1_509B, "sraiw x1, x2, 31"),
];

// Operations on two registers.
const REGISTERS: [(u32, &str); 32] = [
    (0x0094_03B3, "add x7, x8, x9"),
    (0x0031_00B3, "add x1, x2, x3"),
    (0x4094_03B3, "sub x7, x8, x9"),
    (0x41DF_0FB3, "sub x31, x30, x29"),
    (0x0094_13B3, "sll x7, x8, x9"),
    (0x0094_23B3, "slt x7, x8, x9"),
    (0x0094_33B3, "sltu x7, x8, x9"),
    (0x0094_43B3, "xor x7, x8, x9"),
    (0x0094_53B3, "srl x7, x8, x9"),
    (0x4094_53B3, "sra x7, x8, x9"),
    (0x0094_63B3, "or x7, x8, x9"),
    (0x0094_73B3, "and x7, x8, x9"),
    (0x0094_03BB, "addw x7, x8, x9"),
    (0x4094_03BB, "subw x7, x8, x9"),
    (0x0094_13BB, "sllw x7, x8, x9"),
    (0x0094_53BB, "srlw x7, x8, x9"),
    (0x4094_53BB, "sraw x7, x8, x9"),
    (0x0294_03B3, "mul x7, x8, x9"),
    (0x0294_13B3, "mulh x7, x8, x9"),
    (0x0294_23B3, "mulhsu x7, x8, x9"),
    (0x0231_20B3, "mulhsu x1, x2, x3"),
    (0x0294_33B3, "mulhu x7, x8, x9"),
    (0x0294_43B3, "div x7, x8, x9"),
    (0x0294_53B3, "divu x7, x8, x9"),
    (0x0294_63B3, "rem x7, x8, x9"),
    (0x0294_73B3, "remu x7, x8, x9"),
    (0x0294_03BB, "mulw x7, x8, x9"),
    (0x0294_43BB, "divw x7, x8, x9"),
    (0x0294_53BB, "divuw x7, x8, x9"),
    (0x0294_63BB, "remw x7, x8, x9"),
    (0x0294_73BB, "remuw x7, x8, x9"),
    (0x0273_72BB, "remuw x5, x6, x7"),
];

// Atomic instructions.
const ATOMICS: [(u32, &str); 28] = [
    (0x0831_20AF, "amoswap.w x1, x3, (x2)"),
    (0x0E31_30AF, "amoswap.d.aqrl x1, x3, (x2)"),
    (0x0031_20AF, "amoadd.w x1, x3, (x2)"),
    (0x0631_30AF, "amoadd.d.aqrl x1, x3, (x2)"),
    (0x0031_30AF, "amoadd.d x1, x3, (x2)"),
    (0x2031_20AF, "amoxor.w x1, x3, (x2)"),
    (0x2631_30AF, "amoxor.d.aqrl x1, x3, (x2)"),
    (0x6031_20AF, "amoand.w x1, x3, (x2)"),
    (0x6631_30AF, "amoand.d.aqrl x1, x3, (x2)"),
    (0x4031_20AF, "amoor.w x1, x3, (x2)"),
    (0x4631_30AF, "amoor.d.aqrl x1, x3, (x2)"),
    (0x8031_20AF, "amomin.w x1, x3, (x2)"),
    (0x8631_30AF, "amomin.d.aqrl x1, x3, (x2)"),
    (0xA031_20AF, "amomax.w x1, x3, (x2)"),
    (0xA631_30AF, "amomax.d.aqrl x1, x3, (x2)"),
    (0xC031_20AF, "amominu.w x1, x3, (x2)"),
    (0xC631_30AF, "amominu.d.aqrl x1, x3, (x2)"),
    (0xE031_20AF, "amomaxu.w x1, x3, (x2)"),
    (0xE631_30AF, "amomaxu.d.aqrl x1, x3, (x2)"),
    (0xE7EE_AFAF, "amomaxu.w.aqrl x31, x30, (x29)"),
    (0x1003_22AF, "lr.w x5, (x6)"),
    (0x1403_32AF, "lr.d.aq x5, (x6)"),
    (0x1001_20AF, "lr.w x1, (x2)"),
    (0x1401_30AF, "lr.d.aq x1, (x2)"),
    (0x1A73_22AF, "sc.w.rl x5, x7, (x6)"),
    (0x1873_32AF, "sc.d x5, x7, (x6)"),
    (0x1831_20AF, "sc.w x1, x3, (x2)"),
    (0x1A31_30AF, "sc.d.rl x1, x3, (x2)"),
];

// Fences, the second `fence rw, w` and the third `fence.tso`, and calls.
const FENCES_AND_CALLS: [(u32, &str); 6] = [
    (0x0FF0_000F, "fence"),
    (0x0310_000F, "fence"),
    (0x8330_000F, "fence"),
    (0x0000_100F, "fence.i"),
    (0x0000_0073, "ecall"),
    (0x0010_0073, "ebreak"),
];

// Words beside the rows.
const NO_INSTRUCTION: [u32; 35] = [
    // no instruction at all
    0x0000_0000,
    0xFFFF_FFFF,
    0x0000_0001,
    0x0000_2007,
    0x0000_005B,
    // jalr of another funct3
    0x0000_1067,
    // branches
    0x0000_2063,
    0x0000_3063,
    // a load of 8 bytes by zeros, and stores
    0x0000_7003,
    0x0000_4023,
    0x0000_7023,
    // shifts by immediates with other high bits
    0x0400_1013,
    0x8000_5013,
    0x4400_5013,
    0x0200_101B,
    0x4200_501B,
    0x4000_101B,
    // immediate forms that there are not
    0x0000_201B,
    0x0000_401B,
    // operations with another funct7 or funct3
    0x4000_1033,
    0x0400_0033,
    0x4200_0033,
    0x0000_203B,
    0x4000_103B,
    0x0200_103B,
    // a fence of another funct3
    0x0000_200F,
    // csrrw, uret, wfi, and calls with other fields
    0x0000_1073,
    0x0020_0073,
    0x1050_0073,
    0x0000_00F3,
    0x0010_8073,
    // lr of a register, another operation, and other widths
    0x1010_202F,
    0x2800_202F,
    0x0000_002F,
    0x0000_402F,
];

// Each word is decoded to what has the text, and encoded from it.
fn check(rt: &impl Abort, alloc: Global, table: &[(u32, &str)]) -> Result<(), Fail> {
    for &(word, text) in table {
        let Some(inst) = decode(word) else {
            return Err("no instruction")?;
        };
        assert_eq!(rt; encode(inst), Some(word), "{text}");
        let line = dis(alloc, inst)?;
        assert_eq!(rt; line.bytes(), text.as_bytes(), "{word:08x}");
    }
    Ok(())
}

#[test]
fn jumps_and_branches(rt: HostRuntime) -> Result<(), Fail> {
    check(&rt, rt.alloc(), &JUMPS)
}

#[test]
fn loads_and_stores(rt: HostRuntime) -> Result<(), Fail> {
    check(&rt, rt.alloc(), &LOADS_AND_STORES)
}

#[test]
fn operations_on_immediates(rt: HostRuntime) -> Result<(), Fail> {
    check(&rt, rt.alloc(), &IMMEDIATES)
}

#[test]
fn operations_on_registers(rt: HostRuntime) -> Result<(), Fail> {
    check(&rt, rt.alloc(), &REGISTERS)
}

#[test]
fn atomic_instructions(rt: HostRuntime) -> Result<(), Fail> {
    check(&rt, rt.alloc(), &ATOMICS)
}

#[test]
fn fences_and_calls(rt: HostRuntime) -> Result<(), Fail> {
    check(&rt, rt.alloc(), &FENCES_AND_CALLS)
}

#[test]
fn words_of_no_row(rt: HostRuntime) {
    for word in NO_INSTRUCTION {
        assert_eq!(rt; decode(word), None, "{word:08x}");
    }
}
