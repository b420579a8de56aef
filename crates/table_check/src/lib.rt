//! Whether the words of a frame are a page table, found out by looking: what tests and benches of
//! walks ask before they walk. It looks at every entry, so it is for no machine.
#![tactic(auto)]

ghost use Rattle.std.specs.Prelude.{◌≡◌, ◌<◌, ◌⊎◌, ℕ, true};
ghost use Rattle.wf_sv39.specs.Entries.{pte_node as pointer};
ghost use Rattle.wf_sv39.specs.Tables.{IsLeaf, IsPointer, IsTable};

use wf_frames::{Words, word_place};
use wf_outside::PAGE_WORDS;
use wf_sv39::{frame_of, leaf_of, pte_leaf, pte_node};

/// Whether the node in a frame is a table, so that addresses can be walked from it. Where it says
/// yes, this is so; that a no is right isn't proved, and who asks wants a yes.
pub fn is_table(words: &Words, root: u32) -> bool
    ensures there { result ≡ true → root < words.now.frames }
    ensures table { result ≡ true → IsTable words.now 2 root }
{
    root < words.frames() && is_table_2(words, root)
}

// Whether an entry is 0 or a leaf for a frame that there is.
fn is_leaf(frames: u32, pte: u64) -> bool
    ensures { result ≡ true → (pte ≡ 0) ⊎ IsLeaf frames pte }
{
    if pte == 0 {
        return true;
    }
    let Some(leaf) = leaf_of(pte) else {
        return false;
    };
    let frame = frame_of(pte);
    if frame >= u64::from(frames) {
        return false;
    }
    pte == pte_leaf(frame as u32, leaf)
}

// Whether an entry points to a node in a frame that there is.
fn is_pointer(frames: u32, pte: u64) -> bool
    ensures { result ≡ true → IsPointer frames pte }
{
    let frame = frame_of(pte);
    if frame >= u64::from(frames) {
        return false;
    }
    pte == pte_node(frame as u32)
}

// Whether the node in a frame is a table of level 0.
fn is_table_0(words: &Words, node: u32) -> bool
    requires { node < words.now.frames }
    ensures { result ≡ true → IsTable words.now 0 node }
{
    for i in 0..PAGE_WORDS {
        let pte = words.get(word_place(words.frames(), node, i));
        if !is_leaf(words.frames(), pte) {
            return false;
        }
    }
    true
}

// Whether an entry is 0, or points to a table of level 0.
fn leads_to_0(words: &Words, pte: u64) -> bool
    ensures pointer { result ≡ true → (pte ≡ 0) ⊎ IsPointer words.now.frames pte }
    ensures below { result ≡ true → (next : ℕ) → pte ≡ pointer next → IsTable words.now 0 next }
{
    if pte == 0 {
        return true;
    }
    if !is_pointer(words.frames(), pte) {
        return false;
    }
    is_table_0(words, frame_of(pte) as u32)
}

// Whether the node in a frame is a table of level 1.
fn is_table_1(words: &Words, node: u32) -> bool
    requires { node < words.now.frames }
    ensures { result ≡ true → IsTable words.now 1 node }
{
    for i in 0..PAGE_WORDS {
        let pte = words.get(word_place(words.frames(), node, i));
        if !leads_to_0(words, pte) {
            return false;
        }
    }
    true
}

// Whether an entry is 0, or points to a table of level 1.
fn leads_to_1(words: &Words, pte: u64) -> bool
    ensures pointer { result ≡ true → (pte ≡ 0) ⊎ IsPointer words.now.frames pte }
    ensures below { result ≡ true → (next : ℕ) → pte ≡ pointer next → IsTable words.now 1 next }
{
    if pte == 0 {
        return true;
    }
    if !is_pointer(words.frames(), pte) {
        return false;
    }
    is_table_1(words, frame_of(pte) as u32)
}

// Whether the node in a frame is a table of level 2.
fn is_table_2(words: &Words, node: u32) -> bool
    requires { node < words.now.frames }
    ensures { result ≡ true → IsTable words.now 2 node }
{
    for i in 0..PAGE_WORDS {
        let pte = words.get(word_place(words.frames(), node, i));
        if !leads_to_1(words, pte) {
            return false;
        }
    }
    true
}
