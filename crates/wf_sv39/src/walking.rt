//! The walk of an address.
ghost use Rattle.std.specs.Prelude.{◌≡◌, ◌<◌, ◌≤◌, [], ◌∷◌};
ghost use Rattle.wf_sv39.specs.Tables.{IsTable};
ghost use Rattle.wf_sv39.specs.Walks as spec;
ghost use Rattle.wf_sv39.specs.Walks.{IsWalk};
ghost use Rattle.wf_sv39.specs.declared.tree.Walk.{Walk as WalkEnd};

use crate::Walk;
use crate::entry::frame_of;
use arrayvec::ArrayVec;
use wf_frames::{Words, word_place};
use wf_outside::{MOST_FRAMES, PAGE_WORDS};

/// Walks an address from the node in a frame, the root: to its leaf, with the three words of its
/// path; or to the first entry that is 0; or not at all, where the address is far. It takes no
/// memory.
///
/// RISC-V privileged ISA, "Virtual Address Translation Process".
pub fn walk(words: &Words, root: u32, va: u64) -> Walk
    requires root { root < words.now.frames }
    requires table { IsTable words.now 2 root }
    ensures walk { IsWalk words.now root va result }
    ensures only { (other : WalkEnd) → IsWalk words.now root va other → other ≡ result }
{
    if is_far(va) {
        return Walk::Far;
    }
    let first = entry_at(words, root, 2, va);
    if first == 0 {
        return Walk::Missing { level: 2 };
    }
    let second = entry_at(words, frame_of(first) as u32, 1, va);
    if second == 0 {
        return Walk::Missing { level: 1 };
    }
    let leaf = entry_at(words, frame_of(second) as u32, 0, va);
    if leaf == 0 {
        return Walk::Missing { level: 0 };
    }
    Walk::Leaf {
        pte: leaf,
        path: path_of(first, second, leaf),
    }
}

// Whether bits 63 to 39 of an address differ from bit 38.
fn is_far(va: u64) -> bool
    ensures { result ≡ spec.is_far va }
{
    let high = va / (1 << 38);
    !(high == 0 || high == (1 << 26) - 1)
}

// The entry for an address in a node of a level.
fn entry_at(words: &Words, node: u32, level: u8, va: u64) -> u64
    requires node { node < words.now.frames }
    requires level { level ≤ 2 }
    ensures value { result ≡ spec.entry_at words.now node level va }
    ensures few { words.now.frames ≤ MOST_FRAMES }
{
    let i = (va >> (12 + 9 * level)) as usize % PAGE_WORDS;
    words.get(word_place(words.frames(), node, i))
}

// A path of three words.
fn path_of(first: u64, second: u64, leaf: u64) -> ArrayVec<u64, 3>
    ensures { result.items ≡ first ∷ second ∷ leaf ∷ [] }
{
    let mut path = ArrayVec::new();
    path.push(first);
    path.push(second);
    path.push(leaf);
    path
}
