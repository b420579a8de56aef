//! Walks through a table, at the edges of each level.
use std::test::Fail;
use table_check::is_table;
use wf_frames::{Words, word_place};
use wf_outside::{Limits, PAGE_WORDS};
use wf_sv39::{Leaf, Walk, pte_leaf, pte_node, walk};

// The nodes are the frames 10 to 15, and the pages 20 to 22: the lowest page, the one at 0x40_1000,
// and the highest below 2^38, whose leaf the test adds.
fn table() -> [(u32, usize, u64); 7] {
    [
        (10, 0, pte_node(11)),
        (11, 0, pte_node(12)),
        (12, 0, pte_leaf(20, Leaf::Private)),
        (11, 2, pte_node(13)),
        (13, 1, pte_leaf(21, Leaf::Read)),
        (10, 255, pte_node(14)),
        (14, 511, pte_node(15)),
    ]
}

// How a walk is to end: with the words of its path, at the level of a missing entry, or far.
#[derive(Clone, Copy, Debug)]
enum End {
    Path([u64; 3]),
    Missing(u8),
    Far,
}

fn has_ended(walk: &Walk, end: End) -> bool {
    match (walk, end) {
        (Walk::Leaf { pte, path }, End::Path(words)) => {
            *pte == words[2] && path.as_slice() == words.as_slice()
        }
        (Walk::Missing { level }, End::Missing(at)) => *level == at,
        (Walk::Far, End::Far) => true,
        _ => false,
    }
}

#[test]
fn walks_end_at_each_level(rt: HostRuntime) -> Result<(), Fail> {
    let limits = Limits {
        frames: 64,
        last_writes: 1,
        last_birth: 1,
    };
    let mut words = Words::new(rt.alloc(), limits)?;
    for (node, i, pte) in table() {
        assert!(rt; words.frames() == 64 && node < 64 && i < PAGE_WORDS);
        words.set(word_place(64, node, i), pte);
    }
    assert!(rt; words.frames() == 64);
    words.set(word_place(64, 15, 511), pte_leaf(22, Leaf::Write));
    assert!(rt; words.frames() == 64 && is_table(&words, 10));
    let lowest = End::Path([0x2C01, 0x3001, 0x515B]);
    let middle = End::Path([0x2C01, 0x3401, 0x5453]);
    let highest = End::Path([0x3801, 0x3C01, 0x58D7]);
    let cases = [
        (0, lowest),
        (0xFFF, lowest),
        (0x1000, End::Missing(0)),
        (0x1F_FFFF, End::Missing(0)),
        (0x20_0000, End::Missing(1)),
        (0x40_0FFF, End::Missing(0)),
        (0x40_1000, middle),
        (0x40_1FFF, middle),
        (0x40_2000, End::Missing(0)),
        (0x60_0000, End::Missing(1)),
        (0x3FFF_FFFF, End::Missing(1)),
        (0x4000_0000, End::Missing(2)),
        (0x3F_BFFF_FFFF, End::Missing(2)),
        (0x3F_C000_0000, End::Missing(1)),
        (0x3F_FFFF_EFFF, End::Missing(0)),
        // The last page below 2^38, and 2^38 itself.
        (0x3F_FFFF_F000, highest),
        (0x3F_FFFF_FFFF, highest),
        (0x40_0000_0000, End::Far),
        (0x7F_FFFF_FFFF, End::Far),
        (0xFFFF_FFBF_FFFF_FFFF, End::Far),
        // The upper half of the addresses has no entry.
        (0xFFFF_FFC0_0000_0000, End::Missing(2)),
        (u64::MAX, End::Missing(2)),
    ];
    for (va, end) in cases {
        assert!(rt; has_ended(&walk(&words, 10, va), end), "{va:x} {end:?}");
    }
    Ok(())
}
