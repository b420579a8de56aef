//! Generations that are born.
ghost use Rattle.std.specs.Prelude.{◌≡◌, ◌∷◌, [], IfOk};
ghost use Rattle.wf_outside.specs.Images.{text_numbers};

use crate::machines::{page_of, with_text};
use std::alloc::Global;
use std::test::Fail;
use wf_effects::generation_born;
use wf_flat::Flat;
use wf_outside::{Delta, Jump, Memory};

// A patch with page 12, and with a jump over the end of page 10 and the start of page 11.
fn patch(alloc: Global) -> Result<Delta, Memory>
    ensures pages { IfOk result (λ delta. text_numbers delta.private ≡ 0x12 ∷ []) }
    ensures jumps { IfOk result (λ delta. delta.jumps
        ≡ record { at = 0x10FFC; bytes = 1 ∷ 2 ∷ 3 ∷ 4 ∷ 5 ∷ 6 ∷ 7 ∷ 8 ∷ [] } ∷ []) }
{
    let mut private = Vec::new(alloc);
    private.push(page_of(alloc, 0x12)?)?;
    let mut jumps = Vec::new(alloc);
    jumps.push(Jump {
        at: 0x1_0FFC,
        bytes: [1, 2, 3, 4, 5, 6, 7, 8],
    })?;
    Ok(Delta {
        private,
        shared: Vec::new(alloc),
        jumps,
    })
}

// The number, the first and the last word of each page of a generation's text.
fn shown(alloc: Global, flat: &Flat, generation: usize) -> Result<Vec<(u32, u64, u64)>, Memory> {
    let mut shown = Vec::new(alloc);
    if let Some(version) = flat.gens.get(generation) {
        for page in &version.text {
            shown.push((page.number, page.words[0], page.words[511]))?;
        }
    }
    Ok(shown)
}

#[test]
fn a_jump_stands_in_two_pages(rt: HostRuntime) -> Result<(), Fail> {
    let alloc = rt.alloc();
    let mut flat = with_text(alloc)?;
    let deltas = vec![in alloc; patch(alloc)?]?;
    generation_born(alloc, &mut flat, &deltas, 0, Some(0))?;
    let ones = u64::MAX;
    assert_eq!(rt;
        shown(alloc, &flat, 0)?.as_slice(),
        [(0x10, ones, ones), (0x11, ones, ones)].as_slice()
    );
    assert_eq!(rt;
        shown(alloc, &flat, 1)?.as_slice(),
        [
            (0x10, ones, 0x0403_0201_FFFF_FFFF),
            (0x11, 0xFFFF_FFFF_0807_0605, ones),
            (0x12, ones, ones),
        ]
        .as_slice()
    );
    let version = &flat.gens[1];
    assert_eq!(rt;
        (version.number, version.parent, version.patches),
        (1, Some(0), 1)
    );
    assert_eq!(rt; version.reach.as_slice(), [0].as_slice());
    Ok(())
}
