//! What a hart does with an instruction.
ghost use Rattle.std.specs.Prelude.{◌≡◌, ◌≢◌, ℕ, IsTrue};

use rv_alu::AmoOp;
use rv_hart::{finish, finish_call, plan};
use rv_inst::{Arch, Want, decode};
use std::test::Fail;

// Of an instruction without an access: its word; the pc, x1 and x2 before; and these after.
const STEPS: [(u32, [u64; 3], [u64; 3]); 12] = [
    // addi x1, x2, -2048
    (0x8001_0093, [0x1000, 0, 0x9000], [0x1004, 0x8800, 0x9000]),
    // addi x1, x1, 1 at the last address, of the largest number
    (0x0010_8093, [u64::MAX - 3, u64::MAX, 0], [0, 0, 0]),
    // addi x0, x1, 1
    (0x0010_8013, [8, 6, 7], [12, 6, 7]),
    // lui x1, 524288
    (0x8000_00B7, [8, 6, 7], [12, 0xFFFF_FFFF_8000_0000, 7]),
    // auipc x1, 1048575
    (0xFFFF_F097, [0x2008, 6, 7], [0x200C, 0x1008, 7]),
    // jal x1, -4
    (0xFFDF_F0EF, [0x100, 6, 7], [0xFC, 0x104, 7]),
    // jalr x1, -1(x1), of an odd number
    (0xFFF0_80E7, [0x100, 0x206, 7], [0x204, 0x104, 7]),
    // bltu x1, x2, 16, taken and not
    (0x0020_E863, [0x100, 1, u64::MAX], [0x110, 1, u64::MAX]),
    (0x0020_E863, [0x100, u64::MAX, 1], [0x104, u64::MAX, 1]),
    // div x1, x1, x2, of -7 by 2
    (
        0x0220_C0B3,
        [0, 0xFFFF_FFFF_FFFF_FFF9, 2],
        [4, 0xFFFF_FFFF_FFFF_FFFD, 2],
    ),
    // fence
    (0x0FF0_000F, [8, 6, 7], [12, 6, 7]),
    // fence.i
    (0x0000_100F, [8, 6, 7], [12, 6, 7]),
];

// Of an access at the address in x2 and an offset, with 0x12345 in x1: its word, what it wants,
// what it reads, and x1 after.
const ACCESSES: [(u32, Want, u64, u64); 6] = [
    // lb x1, -1(x2)
    (
        0xFFF1_0083,
        Want::Look {
            va: 0xFFF,
            width: 1,
        },
        0x80,
        0xFFFF_FFFF_FFFF_FF80,
    ),
    // lwu x1, 0(x2)
    (
        0x0001_6083,
        Want::Look {
            va: 0x1000,
            width: 4,
        },
        0xFFFF_FFFF,
        0xFFFF_FFFF,
    ),
    // sh x1, 2(x2)
    (
        0x0011_1123,
        Want::Put {
            va: 0x1002,
            width: 2,
            value: 0x1_2345,
        },
        0,
        0x1_2345,
    ),
    // sc.w x1, x1, (x2), missed
    (
        0x1811_20AF,
        Want::PutIf {
            va: 0x1000,
            width: 4,
            value: 0x1_2345,
        },
        1,
        1,
    ),
    // lr.w x1, (x2)
    (
        0x1001_20AF,
        Want::Reserve {
            va: 0x1000,
            width: 4,
        },
        0x8000_0000,
        0xFFFF_FFFF_8000_0000,
    ),
    // amoadd.d x1, x1, (x2)
    (
        0x0011_30AF,
        Want::Swap {
            va: 0x1000,
            width: 8,
            op: AmoOp::Add,
            value: 0x1_2345,
        },
        9,
        9,
    ),
];

// Of an instruction that traps at pc 8, with 6 in x1: its word, x2, and the trap's cause and value,
// the causes as the privileged ISA numbers them.
const TRAPS: [(u32, u64, u8, u64); 9] = [
    // ebreak
    (0x0010_0073, 7, 3, 8),
    // jal x1, 2
    (0x0020_00EF, 7, 0, 10),
    // jalr x1, 2(x2)
    (0x0021_00E7, 0x10, 0, 0x12),
    // beq x1, x1, 2
    (0x0010_8163, 7, 0, 10),
    // lw x1, 2(x2)
    (0x0021_2083, 0x10, 4, 0x12),
    // sd x1, 4(x2)
    (0x0011_3223, 0x10, 6, 0x14),
    // lr.w x1, (x2)
    (0x1001_20AF, 7, 4, 7),
    // amoadd.d x1, x1, (x2)
    (0x0011_30AF, 12, 6, 12),
    // sc.w x1, x1, (x2)
    (0x1811_20AF, 6, 6, 6),
];

// The pc, x1 and x2 are given, and the other registers are 0.
fn arch(pc: u64, x1: u64, x2: u64) -> Arch {
    let mut x = [0; 32];
    x[1] = x1;
    x[2] = x2;
    Arch { pc, x }
}

// Not a call, and not a trap.
fn is_own(want: Want) -> bool
    ensures call { IsTrue result → want ≢ Want.Call }
    ensures no_trap { IsTrue result → (cause value : ℕ) → want ≢ Want.Trap cause value }
{
    !matches!(want, Want::Call | Want::Trap { .. })
}

// What the word wants, and what it leaves after a read of a number.
fn step(before: Arch, word: u32, got: u64) -> Option<(Want, Arch)> {
    let inst = decode(word)?;
    let mut now = before;
    let want = plan(&now, inst);
    if !is_own(want) {
        return None;
    }
    finish(&mut now, inst, got);
    Some((want, now))
}

#[test]
fn instructions_do_what_the_manual_says(rt: HostRuntime) {
    for (word, [pc, x1, x2], [after_pc, after_x1, after_x2]) in STEPS {
        let after = arch(after_pc, after_x1, after_x2);
        assert_eq!(rt;
            step(arch(pc, x1, x2), word, 0),
            Some((Want::Nothing, after)),
            "{word:08x}"
        );
    }
}

#[test]
fn accesses_do_what_the_manual_says(rt: HostRuntime) {
    for (word, want, got, x1) in ACCESSES {
        let before = arch(0x1000, 0x1_2345, 0x1000);
        assert_eq!(rt;
            step(before, word, got),
            Some((want, arch(0x1004, x1, 0x1000))),
            "{word:08x}"
        );
    }
}

#[test]
fn what_may_not_go_on_traps(rt: HostRuntime) -> Result<(), Fail> {
    for (word, x2, cause, value) in TRAPS {
        let Some(inst) = decode(word) else {
            return Err("no instruction")?;
        };
        assert_eq!(rt;
            plan(&arch(8, 6, x2), inst),
            Want::Trap { cause, value },
            "{word:08x}"
        );
    }
    Ok(())
}

#[test]
fn a_call_asks_the_kernel(rt: HostRuntime) {
    let mut now = arch(u64::MAX - 3, 6, 7);
    assert_eq!(rt;
        decode(0x0000_0073).map(|inst| plan(&now, inst)),
        Some(Want::Call)
    );
    finish_call(&mut now, 9);
    let mut after = arch(0, 6, 7);
    after.x[10] = 9;
    assert_eq!(rt; now, after);
}
