//! Page table entries and frame words, as numbers.
use wf_frames::{FrameWord, frame_fields, frame_word, frame_word_place, word_count, word_place};
use wf_sv39::{Leaf, frame_of, leaf_of, pte_leaf, pte_node};

#[test]
fn entries_are_those_of_the_manual(rt: HostRuntime) {
    // Without its frame an entry is V, R, W, X, U, G, A, D from bit 0 on, and bit 8.
    let cases = [
        (0, Leaf::Private, 0x15B),
        (0, Leaf::Read, 0x053),
        (0, Leaf::Write, 0x0D7),
        (5, Leaf::Write, 0x14D7),
        (5, Leaf::Read, 0x1453),
        (7, Leaf::Private, 0x1D5B),
        (65_535, Leaf::Write, 0x3FF_FCD7),
    ];
    for (frame, leaf, pte) in cases {
        assert_eq!(rt; pte_leaf(frame, leaf), pte, "{leaf:?} {frame}");
        assert_eq!(rt; frame_of(pte), u64::from(frame), "{pte:x}");
        assert_eq!(rt; leaf_of(pte), Some(leaf), "{pte:x}");
    }
    assert_eq!(rt; pte_node(0), 0x001);
    assert_eq!(rt; pte_node(6), 0x1801);
    assert_eq!(rt; leaf_of(0x1801), None);
    assert_eq!(rt; leaf_of(0), None);
    assert_eq!(rt; frame_of(0xFFFF_FFFF_FFFF_FFFF), 0xFFF_FFFF_FFFF);
}

#[test]
fn frame_words_have_their_bits(rt: HostRuntime) {
    let first = FrameWord {
        taken: false,
        writes: 0,
        inc: 1,
        live: true,
    };
    let fresh = 0x8000_0100_0000_0000;
    assert_eq!(rt; frame_word(first), fresh);
    // A hart takes the frame, writes it, and gives it back: bit 0, then one more.
    assert_eq!(rt;
        frame_fields(fresh | 1),
        FrameWord {
            taken: true,
            ..first
        }
    );
    assert_eq!(rt;
        frame_fields((fresh | 1) + 1),
        FrameWord { writes: 1, ..first }
    );
    assert_eq!(rt;
        frame_fields(fresh & !(1 << 63)),
        FrameWord {
            live: false,
            ..first
        }
    );
    let last = FrameWord {
        taken: true,
        writes: (1 << 39) - 1,
        inc: (1 << 23) - 1,
        live: true,
    };
    assert_eq!(rt; frame_word(last), u64::MAX);
    assert_eq!(rt; frame_fields(u64::MAX), last);
}

#[test]
fn words_have_their_places(rt: HostRuntime) {
    assert_eq!(rt; frame_word_place(0), 1);
    assert_eq!(rt; frame_word_place(63), 64);
    assert_eq!(rt; word_place(64, 0, 0), 65);
    assert_eq!(rt; word_place(64, 1, 2), 65 + 512 + 2);
    assert_eq!(rt; word_place(64, 63, 511), word_count(64) - 1);
    assert_eq!(rt; word_count(65_536), 33_619_969);
}
