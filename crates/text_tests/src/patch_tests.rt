use patch_file::{PatchFault, read_patch};
use std::alloc::Global;
use std::test::*;

// Files of patches: their text, the name of their object, and what they replace.
const READ: [(&str, &str, &[(&str, &str, u64)]); 9] = [
    (
        "wfpatch 1\nobject fix.o\nreplace square square_2\nreplace main main_2\n",
        "fix.o",
        &[("square", "square_2", 3), ("main", "main_2", 4)],
    ),
    ("wfpatch 1\nobject fix.o\n", "fix.o", &[]),
    ("wfpatch 1\nobject fix.o", "fix.o", &[]),
    ("wfpatch 1\nobject a\nreplace b c", "a", &[("b", "c", 3)]),
    (
        "  wfpatch   1  \n object  a \n  replace  b  c  \n",
        "a",
        &[("b", "c", 3)],
    ),
    (
        "# one\n\nwfpatch 1\n   \n # two\nobject a\n#\nreplace b c\n\n#three\nreplace d e\n#",
        "a",
        &[("b", "c", 8), ("d", "e", 11)],
    ),
    (
        "wfpatch 1\nobject !~\nreplace # ##\n",
        "!~",
        &[("#", "##", 3)],
    ),
    (
        "wfpatch 1\nobject object\nreplace replace wfpatch\nreplace replace wfpatch\n",
        "object",
        &[("replace", "wfpatch", 3), ("replace", "wfpatch", 4)],
    ),
    (
        "wfpatch 1\nobject dir/a\nreplace b b\n   ",
        "dir/a",
        &[("b", "b", 3)],
    ),
];

// Texts that are no file of a patch, and the line of the fault.
const BROKEN: [(&str, u64); 48] = [
    ("", 1),
    ("\n", 2),
    ("\n\n", 3),
    ("   ", 2),
    ("# wfpatch 1", 2),
    ("wfpatch 1", 2),
    ("wfpatch 1\n", 2),
    ("wfpatch 1\n\n", 3),
    ("wfpatch 1\n# object a\n\n  \n", 5),
    ("wfpatch", 1),
    ("wfpatch \nobject a", 1),
    ("wfpatch 2\nobject a", 1),
    ("wfpatch 01\nobject a", 1),
    ("wfpatch 10\nobject a", 1),
    ("wfpatch +1\nobject a", 1),
    ("wfpatch1\nobject a", 1),
    ("wfpatch 1 1\nobject a", 1),
    ("wfpatch run 1\nobject a", 1),
    ("Wfpatch 1\nobject a", 1),
    ("\twfpatch 1\nobject a", 1),
    ("wfpatch\t1\nobject a", 1),
    ("wfpatch 1\r\nobject a", 1),
    ("object a\nwfpatch 1\n", 1),
    ("\n# x\nobject a\nwfpatch 1\n", 3),
    ("wfpatch 1\nwfpatch 1\nobject a", 2),
    ("wfpatch 1\nreplace b c\nobject a", 2),
    ("wfpatch 1\nobject", 2),
    ("wfpatch 1\nobject  \nreplace b c", 2),
    ("wfpatch 1\nobject a b", 2),
    ("wfpatch 1\nobject a #", 2),
    ("wfpatch 1\nobjects a", 2),
    ("wfpatch 1\nobject\ta", 2),
    ("wfpatch 1\nobject a\u{7f}", 2),
    ("wfpatch 1\nobject \u{1f}a", 2),
    ("wfpatch 1\nobject a\0", 2),
    ("wfpatch 1\nobject \u{e9}", 2),
    ("wfpatch 1\nobject a\nobject a", 3),
    ("wfpatch 1\nobject a\nreplace", 3),
    ("wfpatch 1\nobject a\nreplace b", 3),
    ("wfpatch 1\nobject a\nreplace b \n", 3),
    ("wfpatch 1\nobject a\nreplace b c d", 3),
    ("wfpatch 1\nobject a\nreplace b c # d", 3),
    ("wfpatch 1\nobject a\nreplace b\u{7f} c", 3),
    ("wfpatch 1\nobject a\nreplace b c\u{7f}", 3),
    ("wfpatch 1\nobject a\nreplaces b c", 3),
    ("wfpatch 1\nobject a\n\n# d\nreplace b\nreplace", 5),
    ("wfpatch 1\nobject a\nreplace b c\n\t\n", 4),
    ("wfpatch 1\nobject a\nreplace b c\nwfpatch 1", 4),
];

// The fault of a text, and none where it is read.
fn fault(alloc: Global, text: &str) -> Option<PatchFault> {
    match read_patch(alloc, text.as_bytes()) {
        Ok(_) => None,
        Err(fault) => Some(fault),
    }
}

#[test]
fn files_of_patches(rt: HostRuntime) -> Result<(), Fail> {
    for (text, object, replaces) in READ {
        let patch = read_patch(rt.alloc(), text.as_bytes())
            .ok()
            .ok_or("the text is a patch's file")?;
        assert_eq!(rt; patch.object.bytes(), object.as_bytes(), "{text}");
        assert_eq!(rt; patch.replaces.len(), replaces.len(), "{text}");
        for (replace, (old, new, line)) in patch.replaces.iter().zip(replaces) {
            assert_eq!(rt; replace.old.bytes(), old.as_bytes(), "{text}");
            assert_eq!(rt; replace.new.bytes(), new.as_bytes(), "{text}");
            assert_eq!(rt; replace.line, *line, "{text}");
        }
    }
    Ok(())
}

#[test]
fn broken_files_of_patches(rt: HostRuntime) {
    for (text, line) in BROKEN {
        let wanted = Some(PatchFault::Line { line });
        assert_eq!(rt; fault(rt.alloc(), text), wanted, "{text}");
    }
}

// 64 functions are replaced, each on its line, and the line behind them is a fault.
#[test]
fn many_replaces(rt: HostRuntime) -> Result<(), Fail> {
    let mut text = format!(in rt.alloc(); "wfpatch 1\nobject a\n")?;
    for number in 0..64u64 {
        text.push_str(&format!(in rt.alloc(); "replace old_{number} new_{number}\n")?)?;
    }
    let patch = read_patch(rt.alloc(), text.as_bytes())
        .ok()
        .ok_or("the text is a patch's file")?;
    assert_eq!(rt; patch.replaces.len(), 64);
    for (place, replace) in patch.replaces.iter().enumerate() {
        let old = format!(in rt.alloc(); "old_{place}")?;
        let new = format!(in rt.alloc(); "new_{place}")?;
        assert_eq!(rt; replace.old.bytes(), old.as_bytes());
        assert_eq!(rt; replace.new.bytes(), new.as_bytes());
        assert_eq!(rt; replace.line, place as u64 + 3);
    }
    text.push_str("replace old\n")?;
    let wanted = Some(PatchFault::Line { line: 67 });
    assert_eq!(rt; fault(rt.alloc(), &text), wanted);
    Ok(())
}
