//! Entries that meet: differences of labels, pairs of entries, the order of all, and sections
//! without bytes in the file.
use crate::objects::{ABSENT, Entry, FAR, HERE, MEMORY, SECOND, THIRD, TWIN, ZERO, relocated};
use elf_link::LinkFault;
use patch_rules::LinkRule;
use std::alloc::{AllocError, Global};
use std::process::Abort;
use std::test::Fail;

fn entry(group: u32, offset: u64, kind: u32, symbol: u32, addend: i64) -> Entry {
    Entry {
        group,
        offset,
        kind,
        symbol,
        addend,
    }
}

// The bytes of three words.
fn bytes_of(alloc: Global, words: [u32; 3]) -> Result<Vec<u8>, AllocError> {
    let mut bytes = Vec::new(alloc);
    for word in words {
        bytes.extend_from_slice(&word.to_le_bytes())?;
    }
    Ok(bytes)
}

// Three words, the entries for them, and the words after them, or the entry that can't be applied.
#[derive(Clone, Copy)]
struct Case<'a> {
    words: [u32; 3],
    entries: &'a [Entry],
    want: Result<[u32; 3], LinkFault>,
}

fn check(rt: &impl Abort, alloc: Global, cases: &[Case]) -> Result<(), Fail> {
    for (number, case) in cases.iter().enumerate() {
        let text = bytes_of(alloc, case.words)?;
        match (relocated(alloc, &text, case.entries, 1)?, case.want) {
            (Ok(got), Ok(want)) => {
                assert_eq!(rt;
                    got.as_slice(),
                    bytes_of(alloc, want)?.as_slice(),
                    "{number}"
                );
            }
            (Ok(_), Err(_)) => return Err("no fault".into()),
            (Err(_), Ok(_)) => return Err("a fault".into()),
            (Err(got), Err(want)) => assert_eq!(rt; got, want, "{number}"),
        }
    }
    Ok(())
}

fn fault(group: u32, index: u64, rule: LinkRule) -> Result<[u32; 3], LinkFault> {
    Err(LinkFault::Rule { group, index, rule })
}

// auipc, addi and sd, whose parts of an address are 0
const PAIR: [u32; 3] = [0x517, 0x5_0513, 0x55_2023];

// the same for 0x12804
const PAIRED: [u32; 3] = [0x3517, 0x8045_0513, 0x8055_2223];

#[test]
fn pairs(rt: HostRuntime) -> Result<(), Fail> {
    let high = entry(7, 0, 23, ZERO, 0x1_2804);
    let low = entry(7, 4, 24, HERE, 0);
    let store = entry(7, 8, 25, HERE, 0);
    let cases = [
        Case {
            words: PAIR,
            entries: &[high, low, store],
            want: Ok(PAIRED),
        },
        // an entry before the one from which it takes its value, which is in another section
        Case {
            words: PAIR,
            entries: &[low, store, Entry { group: 9, ..high }],
            want: Ok(PAIRED),
        },
        // of two at one label the first counts, and the second is applied to what the first left
        Case {
            words: PAIR,
            entries: &[high, entry(7, 0, 23, HERE, 0x7000), low, store],
            want: Ok([0x7517, 0x8045_0513, 0x8055_2223]),
        },
        // none at the label: it is for another section, or of another type, or elsewhere
        Case {
            words: PAIR,
            entries: &[Entry { group: 8, ..high }, low],
            want: fault(7, 0, LinkRule::NoPair),
        },
        Case {
            words: PAIR,
            entries: &[entry(7, 0, 26, ZERO, 0), low],
            want: fault(7, 1, LinkRule::NoPair),
        },
        Case {
            words: PAIR,
            entries: &[
                high,
                Entry {
                    symbol: SECOND,
                    ..low
                },
            ],
            want: fault(7, 1, LinkRule::NoPair),
        },
        Case {
            words: PAIR,
            entries: &[
                high,
                Entry {
                    symbol: ZERO,
                    ..low
                },
            ],
            want: fault(7, 1, LinkRule::NoPair),
        },
    ];
    check(&rt, rt.alloc(), &cases)
}

// What a pair is refused for, in this order: its own type and place, either symbol, the pair, the
// reach of the value.
#[test]
fn refused_pairs(rt: HostRuntime) -> Result<(), Fail> {
    let high = entry(7, 0, 23, ZERO, 0x1_2804);
    let low = entry(7, 4, 24, HERE, 0);
    let cases = [
        Case {
            words: PAIR,
            entries: &[
                Entry {
                    offset: 9,
                    symbol: ABSENT,
                    ..low
                },
                high,
            ],
            want: fault(7, 0, LinkRule::Offset),
        },
        Case {
            words: PAIR,
            entries: &[
                Entry {
                    symbol: ABSENT,
                    addend: 1,
                    ..low
                },
                high,
            ],
            want: fault(7, 0, LinkRule::NoSymbol),
        },
        Case {
            words: PAIR,
            entries: &[
                Entry {
                    symbol: TWIN,
                    addend: 1,
                    ..low
                },
                high,
            ],
            want: fault(7, 0, LinkRule::Several),
        },
        Case {
            words: PAIR,
            entries: &[
                Entry { addend: 1, ..low },
                Entry {
                    symbol: ABSENT,
                    ..high
                },
            ],
            want: fault(7, 0, LinkRule::NoSymbol),
        },
        Case {
            words: PAIR,
            entries: &[
                Entry { addend: 1, ..low },
                Entry {
                    symbol: TWIN,
                    ..high
                },
            ],
            want: fault(7, 0, LinkRule::Several),
        },
        Case {
            words: PAIR,
            entries: &[
                Entry { addend: 1, ..low },
                Entry {
                    addend: 1 << 40,
                    ..high
                },
            ],
            want: fault(7, 0, LinkRule::NoPair),
        },
        Case {
            words: PAIR,
            entries: &[
                low,
                Entry {
                    addend: 1 << 40,
                    ..high
                },
            ],
            want: fault(
                7,
                0,
                LinkRule::Reach {
                    value: (1 << 40) - 0x1_0000,
                },
            ),
        },
    ];
    check(&rt, rt.alloc(), &cases)
}

#[test]
fn order(rt: HostRuntime) -> Result<(), Fail> {
    let cases = [
        // the difference of two labels, as compilers write it, on what the word has
        Case {
            words: [1, 2, 3],
            entries: &[entry(7, 4, 35, THIRD, 0), entry(7, 4, 39, SECOND, 1)],
            want: Ok([1, 5, 3]),
        },
        Case {
            words: [0xC0, 2, 3],
            entries: &[entry(7, 0, 53, THIRD, 0), entry(7, 0, 52, SECOND, 0)],
            want: Ok([0xC4, 2, 3]),
        },
        // the last at one place counts, of sections by their numbers
        Case {
            words: [1, 2, 3],
            entries: &[entry(9, 0, 1, ZERO, 9), entry(7, 0, 1, ZERO, 7)],
            want: Ok([9, 2, 3]),
        },
        // the first that is refused is told, by its section and its place there
        Case {
            words: [1, 2, 3],
            entries: &[
                entry(9, 0, 51, ABSENT, 0),
                entry(9, 0, 1, FAR, 0),
                entry(9, 4, 99, ABSENT, 0),
                entry(9, 4, 1, ABSENT, 0),
                entry(7, 0, 1, ZERO, 7),
                entry(8, 0, 99, ABSENT, 0),
            ],
            want: fault(9, 2, LinkRule::Reloc { n: 99 }),
        },
    ];
    check(&rt, rt.alloc(), &cases)
}

// A section of memory, and one without a type whose bytes would stand behind the file's end: zeros.
#[test]
fn zeros(rt: HostRuntime) -> Result<(), Fail> {
    let entries = [entry(8, 8, 2, MEMORY, 0x11)];
    let memory = relocated(rt.alloc(), &[1; 16], &entries, 2)?.map_err(|_| "a fault")?;
    assert_eq!(rt;
        memory.as_slice(),
        b"\0\0\0\0\0\0\0\0\x19\0\x02\0\0\0\0\0".as_slice()
    );
    let untyped = relocated(rt.alloc(), &[1; 16], &[], 3)?.map_err(|_| "a fault")?;
    assert_eq!(rt; untyped.as_slice(), [0; 8].as_slice());
    Ok(())
}
