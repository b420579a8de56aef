//! What is answered for the files of patches, and what they bring.
use crate::sources::{CALLS, OBJECT, fetched};
use std::test::Fail;
use wf_outside::Delta;

// The file of a patch that replaces eight.
const GOOD: &[u8] = b"wfpatch 1\nobject o\nreplace eight new\n";

#[test]
fn answers(rt: HostRuntime) -> Result<(), Fail> {
    let alloc = rt.alloc();
    for (p, q, object, line) in [
        // The patch's file comes before its object, and patches come in order.
        (
            b"wfpatch 2\nobject none\n".as_slice(),
            b"".as_slice(),
            OBJECT,
            "wfpatch: patch 0 line 1",
        ),
        (b"wfpatch 1\nobject none\n", b"", OBJECT, "wfpatch: shelf"),
        (
            b"wfpatch 1\nobject i\nreplace x y\n",
            b"",
            OBJECT,
            "wfpatch: patch 0 object kind at 16",
        ),
        (
            GOOD,
            b"wfpatch 1\nobject p\n",
            OBJECT,
            "wfpatch: patch 1 object short at 37",
        ),
        (GOOD, b"wfpatch 1\n", OBJECT, "wfpatch: patch 1 line 2"),
        // Lines, the rules of one in their order.
        (
            b"wfpatch 1\nobject o\nreplace nothing nobody\n",
            b"",
            OBJECT,
            "wfpatch: patch 0 line 3 nofunction",
        ),
        (
            b"wfpatch 1\nobject o\nreplace small other\n",
            b"",
            OBJECT,
            "wfpatch: patch 0 line 3 toosmall",
        ),
        (
            b"wfpatch 1\nobject o\nreplace here new\n",
            b"",
            OBJECT,
            "wfpatch: patch 0 line 3 nofunction",
        ),
        (
            b"wfpatch 1\nobject o\nreplace eight new\nreplace eight other\n",
            b"",
            OBJECT,
            "wfpatch: patch 0 line 4 jumpsmeet",
        ),
        // Lines come before relocations.
        (
            b"wfpatch 1\nobject o\nreplace small new\n",
            b"",
            CALLS,
            "wfpatch: patch 0 line 3 toosmall",
        ),
        (GOOD, b"", CALLS, "wfpatch: patch 0 relocation 5 0 nosymbol"),
    ] {
        match fetched(alloc, p, q, object)? {
            Ok(_) => return Err("no fault".into()),
            Err(status) => {
                let text = status.line(alloc)?;
                assert_eq!(&rt; text.bytes(), line.as_bytes(), "{line}");
            }
        }
    }
    Ok(())
}

// The numbers of a patch's pages, text before data.
fn pages(delta: &Delta) -> [u32; 3] {
    let mut numbers = [0; 3];
    if let [text] = delta.private.as_slice() {
        numbers[0] = text.number;
    }
    if let [constants, variables] = delta.shared.as_slice() {
        numbers[1] = constants.number;
        numbers[2] = variables.number;
    }
    numbers
}

// Two patches, one behind the other: the second replaces what the first did, by its own function.
#[test]
fn brought(rt: HostRuntime) -> Result<(), Fail> {
    let Ok(deltas) = fetched(rt.alloc(), GOOD, GOOD, OBJECT)? else {
        return Err("not fetched".into());
    };
    let [first, second] = deltas.as_slice() else {
        return Err("not two".into());
    };
    assert_eq!(&rt; pages(first), [0x12, 0x13, 0x14]);
    assert_eq!(&rt; pages(second), [0x15, 0x16, 0x17]);
    let ([one], [other]) = (first.jumps.as_slice(), second.jumps.as_slice()) else {
        return Err("not one jump each".into());
    };
    // auipc x6, 2 and jalr x0, -12(x6); auipc x6, 5 and jalr x0, -12(x6).
    assert_eq!(&rt; one.at, 0x1000C);
    assert_eq!(&rt; one.bytes, [0x17, 0x23, 0, 0, 0x67, 0, 0x43, 0xFF]);
    assert_eq!(&rt; other.at, 0x1000C);
    assert_eq!(&rt; other.bytes, [0x17, 0x53, 0, 0, 0x67, 0, 0x43, 0xFF]);
    Ok(())
}
