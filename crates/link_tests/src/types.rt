//! Each type of relocation: its value, its field, and what it refuses.
use crate::objects::{
    ABSENT, BOTH, COMMON, Entry, FAR, HERE, HIGHEST, MEMORY, NAMELESS, THIRD, TWIN, UNLOADED, WEAK,
    WRAPPED, ZERO, relocated,
};
use elf_link::LinkFault;
use patch_rules::LinkRule;
use std::alloc::Global;
use std::process::Abort;
use std::test::Fail;

// An entry at the first of eight bytes: its type, the bytes as a number, its symbol, its addend,
// and the number of the bytes after it, or why it can't be applied. The address of `HERE` is that
// of the bytes, and the address of `ZERO` is 0.
type Row = (u32, u64, u32, i64, Result<u64, LinkRule>);

// A value that isn't reached.
fn far(value: i128) -> Result<u64, LinkRule> {
    Err(LinkRule::Reach { value })
}

// What is left of eight bytes by one entry at a place.
fn applied(alloc: Global, old: u64, entry: Entry) -> Result<Result<u64, LinkRule>, Fail> {
    match relocated(alloc, &old.to_le_bytes(), &[entry], 1)? {
        Ok(bytes) => {
            let bytes = <[u8; 8]>::try_from(bytes.as_slice()).map_err(|_| "not eight")?;
            Ok(Ok(u64::from_le_bytes(bytes)))
        }
        Err(
            LinkFault::Rule {
                group: 7,
                index: 0,
                rule,
            },
        ) => Ok(Err(rule)),
        Err(_) => Err("not the entry".into()),
    }
}

fn check(rt: &impl Abort, alloc: Global, rows: &[Row]) -> Result<(), Fail> {
    for (kind, old, symbol, addend, want) in rows {
        let entry = Entry {
            group: 7,
            offset: 0,
            kind: *kind,
            symbol: *symbol,
            addend: *addend,
        };
        let got = applied(alloc, *old, entry)?;
        assert_eq!(rt; got, *want, "{kind} {old:x} {symbol} {addend}");
    }
    Ok(())
}

#[test]
fn numbers(rt: HostRuntime) -> Result<(), Fail> {
    let rows = [
        (0, 0x1234, ABSENT, 5, Ok(0x1234)),
        (43, 0x1234, ABSENT, 5, Ok(0x1234)),
        (51, 0x1234, ABSENT, 5, Ok(0x1234)),
        (1, 0xAA_0000_0000, ZERO, 0x1234_5678, Ok(0xAA_1234_5678)),
        (1, 0, ZERO, -0x8000_0000, Ok(0x8000_0000)),
        (1, 0, ZERO, 0xFFFF_FFFF, Ok(0xFFFF_FFFF)),
        (1, 0, ZERO, -0x8000_0001, far(-0x8000_0001)),
        (1, 0, ZERO, 0x1_0000_0000, far(0x1_0000_0000)),
        (1, 0, HIGHEST, 1, far(0x1_0000_0000_0000_0000)),
        (2, 7, ZERO, -1, Ok(0xFFFF_FFFF_FFFF_FFFF)),
        (2, 7, HIGHEST, 2, Ok(1)),
        (33, 0x01FF, ZERO, 2, Ok(0x0101)),
        (34, 0x1_FFFF, ZERO, 1, Ok(0x1_0000)),
        (35, 0x1_FFFF_FFFF, ZERO, 1, Ok(0x1_0000_0000)),
        (36, 0xFFFF_FFFF_FFFF_FFFF, ZERO, 1, Ok(0)),
        (37, 0x0100, ZERO, 1, Ok(0x01FF)),
        (38, 0x1_0000, ZERO, 1, Ok(0x1_FFFF)),
        (39, 0x1_0000_0000, ZERO, 1, Ok(0x1_FFFF_FFFF)),
        (40, 0, ZERO, 1, Ok(0xFFFF_FFFF_FFFF_FFFF)),
        (52, 0xAAC0, ZERO, 1, Ok(0xAAFF)),
        (53, 0xAAC5, ZERO, 0x7F, Ok(0xAAFF)),
        (53, 0xAAC5, ZERO, 0x40, Ok(0xAAC0)),
        (54, 0xAAAA, ZERO, 0x1FF, Ok(0xAAFF)),
        (55, 0xAA_AAAA, ZERO, 0x1_2345, Ok(0xAA_2345)),
        (56, 0xAA_0000_0000, ZERO, 0x1_2345_6789, Ok(0xAA_2345_6789)),
        (57, 0xAA_0000_0000, HERE, -0x8000_0000, Ok(0xAA_8000_0000)),
        (57, 0, HERE, 0x7FFF_FFFF, Ok(0x7FFF_FFFF)),
        (57, 0, HERE, 0x8000_0000, far(0x8000_0000)),
        (57, 0, HERE, -0x8000_0001, far(-0x8000_0001)),
        (60, 0, ABSENT, 0, Err(LinkRule::Reloc { n: 60 })),
        (3, 0, ABSENT, 0, Err(LinkRule::Reloc { n: 3 })),
        (20, 0, ABSENT, 0, Err(LinkRule::Reloc { n: 20 })),
    ];
    check(&rt, rt.alloc(), &rows)
}

#[test]
fn instructions(rt: HostRuntime) -> Result<(), Fail> {
    let call = 0x0000_80E7_0000_0097;
    let rows = [
        (16, 0xAA_0000_0063, HERE, 0x10, Ok(0xAA_0000_0863)),
        (16, 0x63, HERE, 4094, Ok(0x7E00_0FE3)),
        (16, 0x63, HERE, -4096, Ok(0x8000_0063)),
        (16, 0x7E00_0FE3, HERE, 0, Ok(0x63)),
        (16, 0x63, HERE, 4095, Err(LinkRule::Odd)),
        (16, 0x63, HERE, 4096, far(4096)),
        (16, 0x63, HERE, 4097, Err(LinkRule::Odd)),
        (16, 0x63, HERE, -4097, Err(LinkRule::Odd)),
        (16, 0x63, HERE, -4098, far(-4098)),
        (17, 0x6F, HERE, 0x800, Ok(0x0010_006F)),
        (17, 0x6F, HERE, 0xF_FFFE, Ok(0x7FFF_F06F)),
        (17, 0x6F, HERE, -0x10_0000, Ok(0x8000_006F)),
        (17, 0x6F, HERE, 0x10_0000, far(0x10_0000)),
        (17, 0x6F, HERE, -0x10_0002, far(-0x10_0002)),
        (17, 0x6F, HERE, 0x10_0001, Err(LinkRule::Odd)),
        (18, call, HERE, 0x2804, Ok(0x8040_80E7_0000_3097)),
        (19, call, HERE, 0x2804, Ok(0x8040_80E7_0000_3097)),
        (19, call, HERE, 0x7FFF_F7FE, Ok(0x7FE0_80E7_7FFF_F097)),
        (19, call, HERE, 0x7FFF_F800, far(0x7FFF_F800)),
        (19, call, HERE, -0x8000_0800, Ok(0x8000_80E7_8000_0097)),
        (19, call, HERE, -0x8000_0802, far(-0x8000_0802)),
        (19, call, HERE, 0x2805, Err(LinkRule::Odd)),
        (23, 0x517, HERE, 0x2804, Ok(0x3517)),
        (23, 0x517, HERE, 0x7FFF_F7FF, Ok(0x7FFF_F517)),
        (23, 0x517, HERE, 0x7FFF_F800, far(0x7FFF_F800)),
        (23, 0x517, HERE, -0x8000_0800, Ok(0x8000_0517)),
        (23, 0x517, HERE, -0x8000_0801, far(-0x8000_0801)),
        (26, 0x537, ZERO, 0x1_2804, Ok(0x1_3537)),
        (26, 0x537, HIGHEST, 0, Ok(0x537)),
        (26, 0x537, ZERO, 0x7FFF_F800, far(0x7FFF_F800)),
        (26, 0x537, ZERO, -0x8000_0801, far(-0x8000_0801)),
        (27, 0x5_0513, ZERO, 0x1_2804, Ok(0x8045_0513)),
        (27, 0x5_0513, ZERO, 0x7FF, Ok(0x7FF5_0513)),
        (28, 0x55_2023, ZERO, 0x1_2804, Ok(0x8055_2223)),
        (28, 0xFE55_2FA3, HIGHEST, 1, Ok(0x0055_2023)),
    ];
    check(&rt, rt.alloc(), &rows)
}

#[test]
fn symbols(rt: HostRuntime) -> Result<(), Fail> {
    let rows = [
        (2, 0, 0, 5, Ok(5)),
        (2, 0, THIRD, 0, Ok(0x1_0008)),
        (2, 0, FAR, 1, Ok(0x5000_0001)),
        (2, 0, TWIN, 0, Err(LinkRule::Several)),
        (2, 0, ABSENT, 0, Err(LinkRule::NoSymbol)),
        (2, 0, WEAK, 3, Ok(3)),
        (2, 0, UNLOADED, 0, Err(LinkRule::NoSymbol)),
        (2, 0, COMMON, 0, Err(LinkRule::NoSymbol)),
        (2, 0, NAMELESS, 0, Err(LinkRule::NoSymbol)),
        (2, 0, MEMORY, 0, Ok(0x2_0008)),
        (2, 0, WRAPPED, 9, Ok(9)),
        (2, 0, BOTH, 0, Ok(0x222)),
        // an undefined weak name is at 0, also where that is out of reach
        (17, 0x6F, WEAK, 0x0F_0000, Ok(0x000E_006F)),
        (17, 0x6F, WEAK, 0x20_0000, far(0x1F_0000)),
    ];
    check(&rt, rt.alloc(), &rows)
}

// The first place at which a field of each type isn't inside the eight bytes, and the last at which
// it is.
#[test]
fn places(rt: HostRuntime) -> Result<(), Fail> {
    let widths = [
        (33, 1),
        (34, 2),
        (16, 4),
        (23, 4),
        (27, 4),
        (2, 8),
        (18, 8),
        (53, 1),
    ];
    for (kind, width) in widths {
        for (offset, inside) in [
            (8u64.wrapping_sub(width), true),
            (9u64.wrapping_sub(width), false),
        ] {
            let entry = Entry {
                group: 7,
                offset,
                kind,
                symbol: HERE,
                addend: 8,
            };
            let got = applied(rt.alloc(), 0, entry)?;
            assert_eq!(rt; got == Err(LinkRule::Offset), !inside, "{kind} {offset}");
        }
    }
    let entry = Entry {
        group: 7,
        offset: 100,
        kind: 51,
        symbol: ABSENT,
        addend: 0,
    };
    assert_eq!(rt; applied(rt.alloc(), 7, entry)?, Ok(7));
    Ok(())
}
