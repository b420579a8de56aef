//! What is done at the last count of writes, which is far below that of runs of the program.
ghost use Rattle.std.specs.Prelude.{◌<◌, ◌≤◌, length};
ghost use Rattle.wf_outside.specs.declared.sizes.TheConstants.{PAGE_WORDS};
ghost use Rattle.wf_script.specs.Commands.{IsCount};

use crate::images::small_image;
use std::alloc::Global;
use std::test::Fail;
use wf_driver::Machine;
use wf_outside::Limits;
use wf_script::Command;

// Nine words, two in each: addi x5, x0, -1; ld x4, -8(x2); sd x5, -8(x2); ld x4, -8(x2); sb x0,
// -8(x2); lbu x4, -7(x2); lui x3, 0xfffff; add x3, x3, x2; ld x4, -8(x3).
const PLAIN: [u64; 5] = [
    0xFF81_3203_FFF0_0293,
    0xFF81_3203_FE51_3C23,
    0xFF91_4203_FE01_0C23,
    0x0021_81B3_FFFF_F1B7,
    0x0000_0000_FF81_B203,
];

// Eight words, two in each: lui x8, 0x80000; sd x8, -8(x2); addi x9, x2, -8; lr.d x7, (x9);
// sc.d x8, x9, (x9); lr.w x7, (x9); sc.w x6, x9, (x9); amoadd.w x5, x9, (x9).
const ATOMIC: [u64; 4] = [
    0xFE81_3C23_8000_0437,
    0x1004_B3AF_FF81_0493,
    0x1004_A3AF_1894_B42F,
    0x0094_A2AF_1894_A32F,
];

// The report of the plain words where the last count is 1.
const PLAIN_AT_ONE: &str = "wfpatch run 1
harts 1
frames 1024
h0 fetch 10000 fff00293
h0 end 10004
h0 fetch 10004 ff813203
h0 enter
h0 sync 0 3e0000f
h0 look 3e0000fff8 8 0
h0 end 10008
h0 fetch 10008 fe513c23
h0 take 3e0000f
h0 put 3e0000fff8 8 ffffffffffffffff
h0 end 1000c
h0 fetch 1000c ff813203
h0 take 3e0000f
h0 look 3e0000fff8 8 ffffffffffffffff
h0 end 10010
h0 fetch 10010 fe010c23
h0 take 3e0000f
h0 put 3e0000fff8 1 0
h0 end 10014
h0 fetch 10014 ff914203
h0 take 3e0000f
h0 look 3e0000fff9 1 ff
h0 end 10018
h0 fetch 10018 fffff1b7
h0 end 1001c
h0 fetch 1001c 002181b3
h0 end 10020
h0 fetch 10020 ff81b203
h0 enter
h0 sync 0 3e0000e
h0 look 3e0000eff8 8 0
h0 end 10024
= hart 0 gen 0 pc 10024 running
= regs 0 0 3e00010000 3e0000f000 0 ffffffffffffffff 0 0 0 0 0 0 0 0 0 0 0 0 0 0 0 0 0 0 0 0 0 0 0 0 0 0
= gen 0 parent - live patches 0
= page 3e0000c rw here writes 0
= page 3e0000d rw here writes 0
= page 3e0000e rw here writes 0
= page 3e0000f rw here writes 1
= word 3e0000fff8 ffffffffffffff00
";

// The report of the first six of them where it is 2.
const PLAIN_AT_TWO: &str = "wfpatch run 1
harts 1
frames 1024
h0 fetch 10000 fff00293
h0 end 10004
h0 fetch 10004 ff813203
h0 enter
h0 sync 0 3e0000f
h0 look 3e0000fff8 8 0
h0 end 10008
h0 fetch 10008 fe513c23
h0 take 3e0000f
h0 put 3e0000fff8 8 ffffffffffffffff
h0 end 1000c
h0 fetch 1000c ff813203
h0 look 3e0000fff8 8 ffffffffffffffff
h0 end 10010
h0 fetch 10010 fe010c23
h0 take 3e0000f
h0 put 3e0000fff8 1 0
h0 end 10014
h0 fetch 10014 ff914203
h0 take 3e0000f
h0 look 3e0000fff9 1 ff
h0 end 10018
= hart 0 gen 0 pc 10018 running
= regs 0 0 3e00010000 0 ff ffffffffffffffff 0 0 0 0 0 0 0 0 0 0 0 0 0 0 0 0 0 0 0 0 0 0 0 0 0 0
= gen 0 parent - live patches 0
= page 3e0000c rw here writes 0
= page 3e0000d rw here writes 0
= page 3e0000e rw here writes 0
= page 3e0000f rw here writes 2
= word 3e0000fff8 ffffffffffffff00
";

// The report of the atomic words where the last count is 1.
const ATOMIC_AT_ONE: &str = "wfpatch run 1
harts 1
frames 1024
h0 fetch 10000 80000437
h0 end 10004
h0 fetch 10004 fe813c23
h0 enter
h0 sync 0 3e0000f
h0 take 3e0000f
h0 put 3e0000fff8 8 ffffffff80000000
h0 end 10008
h0 fetch 10008 ff810493
h0 end 1000c
h0 fetch 1000c 1004b3af
h0 take 3e0000f
h0 look 3e0000fff8 8 ffffffff80000000
h0 end 10010
h0 fetch 10010 1894b42f
h0 miss 3e0000fff8
h0 end 10014
h0 fetch 10014 1004a3af
h0 take 3e0000f
h0 look 3e0000fff8 4 80000000
h0 end 10018
h0 fetch 10018 1894a32f
h0 miss 3e0000fff8
h0 end 1001c
h0 fetch 1001c 0094a2af
h0 take 3e0000f
h0 swap 3e0000fff8 4 80000000 8000fff8
h0 end 10020
= hart 0 gen 0 pc 10020 running
= regs 0 0 3e00010000 0 0 ffffffff80000000 1 ffffffff80000000 1 3e0000fff8 0 0 0 0 0 0 0 0 0 0 0 0 0 0 0 0 0 0 0 0 0 0
= gen 0 parent - live patches 0
= page 3e0000c rw here writes 0
= page 3e0000d rw here writes 0
= page 3e0000e rw here writes 0
= page 3e0000f rw here writes 1
= word 3e0000fff8 ffffffff8000fff8
";

// And where it is 2.
const ATOMIC_AT_TWO: &str = "wfpatch run 1
harts 1
frames 1024
h0 fetch 10000 80000437
h0 end 10004
h0 fetch 10004 fe813c23
h0 enter
h0 sync 0 3e0000f
h0 take 3e0000f
h0 put 3e0000fff8 8 ffffffff80000000
h0 end 10008
h0 fetch 10008 ff810493
h0 end 1000c
h0 fetch 1000c 1004b3af
h0 look 3e0000fff8 8 ffffffff80000000
h0 end 10010
h0 fetch 10010 1894b42f
h0 take 3e0000f
h0 put 3e0000fff8 8 3e0000fff8
h0 end 10014
h0 fetch 10014 1004a3af
h0 take 3e0000f
h0 look 3e0000fff8 4 fff8
h0 end 10018
h0 fetch 10018 1894a32f
h0 miss 3e0000fff8
h0 end 1001c
h0 fetch 1001c 0094a2af
h0 take 3e0000f
h0 swap 3e0000fff8 4 fff8 1fff0
h0 end 10020
= hart 0 gen 0 pc 10020 running
= regs 0 0 3e00010000 0 0 fff8 1 fff8 0 3e0000fff8 0 0 0 0 0 0 0 0 0 0 0 0 0 0 0 0 0 0 0 0 0 0
= gen 0 parent - live patches 0
= page 3e0000c rw here writes 0
= page 3e0000d rw here writes 0
= page 3e0000e rw here writes 0
= page 3e0000f rw here writes 2
= word 3e0000fff8 3e0001fff0
";

// The report of so many units of one hart on these words, where counts of writes go so far.
fn counted(alloc: Global, words: &[u64], last_writes: u64, n: u64) -> Result<Vec<u8>, Fail>
    requires first { 1 ≤ last_writes }
    requires low { last_writes < 1000 }
    requires few { length words.now ≤ PAGE_WORDS }
    requires some { IsCount 1000000 n }
{
    let limits = Limits {
        frames: 1024,
        last_writes,
        last_birth: 1000,
    };
    let image = small_image(alloc, words)?;
    let mut machine = Machine::new(alloc, &image, 1, limits, Vec::new(alloc), false)?;
    machine.obey(alloc, Command::Step { hart: 0, n })?;
    Ok(machine.report(alloc, &[])?)
}

#[test]
fn plain_accesses(rt: HostRuntime) -> Result<(), Fail> {
    let got = counted(rt.alloc(), &PLAIN, 1, 9)?;
    assert!(rt; got.starts_with(PLAIN_AT_ONE.as_bytes()));
    let got = counted(rt.alloc(), &PLAIN, 2, 6)?;
    assert!(rt; got.starts_with(PLAIN_AT_TWO.as_bytes()));
    Ok(())
}

#[test]
fn atomic_operations(rt: HostRuntime) -> Result<(), Fail> {
    let got = counted(rt.alloc(), &ATOMIC, 1, 8)?;
    assert_eq!(rt; str::from_utf8(&got)?, ATOMIC_AT_ONE);
    let got = counted(rt.alloc(), &ATOMIC, 2, 8)?;
    assert_eq!(rt; str::from_utf8(&got)?, ATOMIC_AT_TWO);
    Ok(())
}
