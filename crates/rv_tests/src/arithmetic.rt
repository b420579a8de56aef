//! The arithmetic of instructions against the tables of the manual.
use rv_alu::{AluOp, AmoOp, Cond, alu, amo, taken};

const MINUS_ONE: u64 = 0xFFFF_FFFF_FFFF_FFFF;

const MINUS_TWO: u64 = 0xFFFF_FFFF_FFFF_FFFE;

const MINUS_THREE: u64 = 0xFFFF_FFFF_FFFF_FFFD;

const MINUS_SEVEN: u64 = 0xFFFF_FFFF_FFFF_FFF9;

const LEAST: u64 = 0x8000_0000_0000_0000;

const GREATEST: u64 = 0x7FFF_FFFF_FFFF_FFFF;

const LEAST_WORD: u64 = 0xFFFF_FFFF_8000_0000;

const GREATEST_WORD: u64 = 0x7FFF_FFFF;

#[test]
fn each_operation_gives_what_the_manual_says(rt: HostRuntime) {
    for (op, a, b, want) in [
        (AluOp::Add, 2, 3, 5),
        (AluOp::Add, MINUS_ONE, 1, 0),
        (AluOp::Add, GREATEST, 1, LEAST),
        (AluOp::Add, LEAST, LEAST, 0),
        (AluOp::Sub, 5, 3, 2),
        (AluOp::Sub, 0, 1, MINUS_ONE),
        (AluOp::Sub, LEAST, 1, GREATEST),
        (AluOp::Sub, GREATEST, MINUS_ONE, LEAST),
        (AluOp::Sll, 1, 63, LEAST),
        (AluOp::Sll, 1, 32, 0x1_0000_0000),
        (AluOp::Sll, 1, 64, 1),
        (AluOp::Sll, 3, MINUS_ONE, LEAST),
        (AluOp::Slt, MINUS_ONE, 0, 1),
        (AluOp::Slt, 0, MINUS_ONE, 0),
        (AluOp::Slt, LEAST, GREATEST, 1),
        (AluOp::Slt, GREATEST, LEAST, 0),
        (AluOp::Slt, 5, 5, 0),
        (AluOp::Sltu, MINUS_ONE, 0, 0),
        (AluOp::Sltu, 0, MINUS_ONE, 1),
        (AluOp::Sltu, GREATEST, LEAST, 1),
        (AluOp::Sltu, 5, 5, 0),
        (AluOp::Xor, 0b1100, 0b1010, 0b0110),
        (AluOp::Xor, MINUS_ONE, LEAST, GREATEST),
        (AluOp::Srl, LEAST, 63, 1),
        (AluOp::Srl, MINUS_ONE, 1, GREATEST),
        (AluOp::Srl, LEAST, 64, LEAST),
        (AluOp::Srl, MINUS_ONE, MINUS_ONE, 1),
        (AluOp::Sra, LEAST, 63, MINUS_ONE),
        (AluOp::Sra, LEAST, 1, 0xC000_0000_0000_0000),
        (AluOp::Sra, LEAST, 64, LEAST),
        (AluOp::Sra, GREATEST, 62, 1),
        // -5 is rounded down to -3
        (AluOp::Sra, 0xFFFF_FFFF_FFFF_FFFB, 1, 0xFFFF_FFFF_FFFF_FFFD),
        (AluOp::Or, 0b1100, 0b1010, 0b1110),
        (AluOp::Or, LEAST, GREATEST, MINUS_ONE),
        (AluOp::And, 0b1100, 0b1010, 0b1000),
        (AluOp::And, LEAST, GREATEST, 0),
        (AluOp::Addw, GREATEST_WORD, 1, LEAST_WORD),
        (AluOp::Addw, 0xFFFF_FFFF, 1, 0),
        (AluOp::Addw, 0x8000_0000, 0, LEAST_WORD),
        (AluOp::Addw, 0x8000_0000, MINUS_ONE, GREATEST_WORD),
        (AluOp::Addw, 0x1_0000_0002, 3, 5),
        (AluOp::Subw, 0, 1, MINUS_ONE),
        (AluOp::Subw, LEAST_WORD, 1, GREATEST_WORD),
        (AluOp::Subw, GREATEST_WORD, MINUS_ONE, LEAST_WORD),
        (AluOp::Subw, LEAST, 0, 0),
        (AluOp::Sllw, 1, 31, LEAST_WORD),
        (AluOp::Sllw, 1, 32, 1),
        (AluOp::Sllw, 0x8000_0000, 1, 0),
        (AluOp::Sllw, 0x1_0000_0001, 4, 16),
        (AluOp::Srlw, 0x8000_0000, 31, 1),
        (AluOp::Srlw, 0x8000_0000, 32, LEAST_WORD),
        (AluOp::Srlw, MINUS_ONE, 1, GREATEST_WORD),
        (AluOp::Srlw, 0x1_0000_0000, 1, 0),
        (AluOp::Sraw, 0x8000_0000, 31, MINUS_ONE),
        (AluOp::Sraw, 0x8000_0000, 32, LEAST_WORD),
        (AluOp::Sraw, GREATEST_WORD, 30, 1),
        (AluOp::Sraw, 0xFFFF_FFFF_0000_0010, 4, 1),
    ] {
        assert_eq!(rt; alu(op, a, b), want, "{op:?} of {a:x} and {b:x}");
    }
}

#[test]
fn each_product_is_what_the_manual_says(rt: HostRuntime) {
    for (op, a, b, want) in [
        (AluOp::Mul, 3, 5, 15),
        (AluOp::Mul, MINUS_ONE, MINUS_ONE, 1),
        (AluOp::Mul, LEAST, MINUS_ONE, LEAST),
        (AluOp::Mul, 0x1_0000_0000, 0x1_0000_0000, 0),
        (AluOp::Mulh, MINUS_ONE, MINUS_ONE, 0),
        (AluOp::Mulh, MINUS_ONE, 1, MINUS_ONE),
        // 2^126
        (AluOp::Mulh, LEAST, LEAST, 0x4000_0000_0000_0000),
        // 2^126 - 2^64 + 1
        (AluOp::Mulh, GREATEST, GREATEST, 0x3FFF_FFFF_FFFF_FFFF),
        // -2^126 + 2^63
        (AluOp::Mulh, LEAST, GREATEST, 0xC000_0000_0000_0000),
        (AluOp::Mulhsu, 1, MINUS_ONE, 0),
        (AluOp::Mulhsu, MINUS_ONE, 1, MINUS_ONE),
        // -2^64 + 1
        (AluOp::Mulhsu, MINUS_ONE, MINUS_ONE, MINUS_ONE),
        // -2^127 + 2^63
        (AluOp::Mulhsu, LEAST, MINUS_ONE, LEAST),
        // 2^127 - 2^64 - 2^63 + 1
        (AluOp::Mulhsu, GREATEST, MINUS_ONE, 0x7FFF_FFFF_FFFF_FFFE),
        (AluOp::Mulhu, MINUS_ONE, 1, 0),
        (AluOp::Mulhu, LEAST, 2, 1),
        // 2^128 - 2^65 + 1
        (AluOp::Mulhu, MINUS_ONE, MINUS_ONE, 0xFFFF_FFFF_FFFF_FFFE),
        (AluOp::Mulw, 0x1_0000_0003, 5, 15),
        (AluOp::Mulw, 0xFFFF_FFFF, 0xFFFF_FFFF, 1),
        (AluOp::Mulw, 0x8000_0000, MINUS_ONE, LEAST_WORD),
        (AluOp::Mulw, GREATEST_WORD, 2, MINUS_TWO),
    ] {
        assert_eq!(rt; alu(op, a, b), want, "{op:?} of {a:x} and {b:x}");
    }
}

#[test]
fn each_quotient_and_remainder_is_what_the_manual_says(rt: HostRuntime) {
    for (op, a, b, want) in [
        (AluOp::Div, 7, MINUS_TWO, MINUS_THREE),
        (AluOp::Div, MINUS_SEVEN, 2, MINUS_THREE),
        (AluOp::Div, MINUS_SEVEN, MINUS_TWO, 3),
        (AluOp::Div, LEAST, 1, LEAST),
        (AluOp::Div, LEAST, MINUS_ONE, LEAST),
        (AluOp::Div, GREATEST, MINUS_ONE, 0x8000_0000_0000_0001),
        (AluOp::Div, 5, 0, MINUS_ONE),
        (AluOp::Div, LEAST, 0, MINUS_ONE),
        (AluOp::Divu, MINUS_ONE, 2, GREATEST),
        (AluOp::Divu, LEAST, MINUS_ONE, 0),
        (AluOp::Divu, 5, 0, MINUS_ONE),
        (AluOp::Rem, 7, MINUS_TWO, 1),
        (AluOp::Rem, MINUS_SEVEN, 2, MINUS_ONE),
        (AluOp::Rem, MINUS_SEVEN, MINUS_TWO, MINUS_ONE),
        (AluOp::Rem, LEAST, MINUS_ONE, 0),
        (AluOp::Rem, 5, 0, 5),
        (AluOp::Rem, LEAST, 0, LEAST),
        (AluOp::Remu, MINUS_ONE, 2, 1),
        (AluOp::Remu, LEAST, MINUS_ONE, LEAST),
        (AluOp::Remu, MINUS_ONE, LEAST, GREATEST),
        (AluOp::Remu, 5, 0, 5),
        (AluOp::Divw, 0x1_0000_0007, 2, 3),
        (AluOp::Divw, 0xFFFF_FFF9, 2, MINUS_THREE),
        (AluOp::Divw, 0x8000_0000, 0xFFFF_FFFF, LEAST_WORD),
        (AluOp::Divw, 5, 0x1_0000_0000, MINUS_ONE),
        (AluOp::Divuw, 0xFFFF_FFFF, 1, MINUS_ONE),
        (AluOp::Divuw, MINUS_ONE, 2, GREATEST_WORD),
        (AluOp::Divuw, 0x8000_0000, 0xFFFF_FFFF, 0),
        (AluOp::Divuw, 5, 0x1_0000_0000, MINUS_ONE),
        (AluOp::Remw, 0xFFFF_FFF9, 2, MINUS_ONE),
        (AluOp::Remw, 7, 0xFFFF_FFFE, 1),
        (AluOp::Remw, 0x8000_0000, 0xFFFF_FFFF, 0),
        (AluOp::Remw, 0x8000_0000, 0, LEAST_WORD),
        (AluOp::Remw, 0x1_0000_0005, 0x1_0000_0000, 5),
        (AluOp::Remuw, 0x1_0000_0005, 0x1_0000_0003, 2),
        (AluOp::Remuw, 0xFFFF_FFFF, 0x8000_0000, GREATEST_WORD),
        (AluOp::Remuw, 0x8000_0000, 0xFFFF_FFFF, LEAST_WORD),
        (AluOp::Remuw, 0x8000_0000, 0, LEAST_WORD),
    ] {
        assert_eq!(rt; alu(op, a, b), want, "{op:?} of {a:x} and {b:x}");
    }
}

#[test]
fn each_atomic_operation_writes_what_the_manual_says(rt: HostRuntime) {
    for (op, wide, old, b, want) in [
        (AmoOp::Swap, true, 5, MINUS_ONE, MINUS_ONE),
        (AmoOp::Swap, false, 5, MINUS_ONE, 0xFFFF_FFFF),
        (AmoOp::Add, true, GREATEST, 1, LEAST),
        (AmoOp::Add, true, MINUS_ONE, 1, 0),
        (AmoOp::Add, false, GREATEST_WORD, 1, 0x8000_0000),
        (AmoOp::Add, false, 0xFFFF_FFFF, 1, 0),
        (AmoOp::Add, false, 2, 0x1_0000_0003, 5),
        (AmoOp::Xor, true, MINUS_ONE, LEAST, GREATEST),
        (AmoOp::Xor, false, 0x8000_0000, MINUS_ONE, GREATEST_WORD),
        (AmoOp::And, true, LEAST, GREATEST, 0),
        (AmoOp::And, false, MINUS_ONE, LEAST_WORD, 0x8000_0000),
        (AmoOp::Or, true, LEAST, GREATEST, MINUS_ONE),
        (AmoOp::Or, false, 1, LEAST_WORD, 0x8000_0001),
        (AmoOp::Min, true, LEAST, GREATEST, LEAST),
        (AmoOp::Min, true, 0, MINUS_ONE, MINUS_ONE),
        (AmoOp::Min, false, GREATEST_WORD, 0x8000_0000, 0x8000_0000),
        (AmoOp::Min, false, 7, 0x1_0000_0005, 5),
        (AmoOp::Max, true, LEAST, GREATEST, GREATEST),
        (AmoOp::Max, true, 0, MINUS_ONE, 0),
        (AmoOp::Max, false, GREATEST_WORD, 0x8000_0000, GREATEST_WORD),
        (AmoOp::Max, false, 7, 0x1_0000_0005, 7),
        (AmoOp::Minu, true, LEAST, GREATEST, GREATEST),
        (AmoOp::Minu, true, 0, MINUS_ONE, 0),
        (
            AmoOp::Minu,
            false,
            GREATEST_WORD,
            0x8000_0000,
            GREATEST_WORD,
        ),
        (AmoOp::Minu, false, 7, 0x1_0000_0005, 5),
        (AmoOp::Maxu, true, LEAST, GREATEST, LEAST),
        (AmoOp::Maxu, true, 0, MINUS_ONE, MINUS_ONE),
        (AmoOp::Maxu, false, GREATEST_WORD, 0x8000_0000, 0x8000_0000),
        (AmoOp::Maxu, false, 7, 0x1_0000_0005, 7),
    ] {
        assert_eq!(rt;
            amo(op, wide, old, b),
            want,
            "{op:?}, wide {wide}, of {old:x} and {b:x}"
        );
    }
}

#[test]
fn each_condition_holds_where_the_manual_says(rt: HostRuntime) {
    for (cond, a, b, want) in [
        (Cond::Equal, 7, 7, true),
        (Cond::Equal, 0x8000_0000, LEAST_WORD, false),
        (Cond::NotEqual, 7, 7, false),
        (Cond::NotEqual, 0, LEAST, true),
        (Cond::Less, MINUS_ONE, 0, true),
        (Cond::Less, 0, MINUS_ONE, false),
        (Cond::Less, LEAST, GREATEST, true),
        (Cond::Less, 7, 7, false),
        (Cond::GreaterOrEqual, MINUS_ONE, 0, false),
        (Cond::GreaterOrEqual, 0, MINUS_ONE, true),
        (Cond::GreaterOrEqual, GREATEST, LEAST, true),
        (Cond::GreaterOrEqual, 7, 7, true),
        (Cond::LessUnsigned, MINUS_ONE, 0, false),
        (Cond::LessUnsigned, 0, MINUS_ONE, true),
        (Cond::LessUnsigned, GREATEST, LEAST, true),
        (Cond::LessUnsigned, 7, 7, false),
        (Cond::GreaterOrEqualUnsigned, MINUS_ONE, 0, true),
        (Cond::GreaterOrEqualUnsigned, 0, MINUS_ONE, false),
        (Cond::GreaterOrEqualUnsigned, GREATEST, LEAST, false),
        (Cond::GreaterOrEqualUnsigned, 7, 7, true),
    ] {
        assert_eq!(rt; taken(cond, a, b), want, "{cond:?} of {a:x} and {b:x}");
    }
}
