//! The walk of an address, and what its leaf says.
ghost use Rattle.std.specs.Prelude.{◌≤◌, IsSome};
ghost use Rattle.wf_outside.specs.declared.sizes.TheConstants.{MOST_FRAMES};
ghost use Rattle.wf_views.specs.Views.{view_of};
ghost use Rattle.wf_sv39.specs.Tables.{IsLeaf};
ghost use Rattle.wf_translation.specs.Translations.{AddressTold, CanTranslate, HasFrame, IsRoot, LeafTold};

use crate::Translation;
use wf_frames::Words;
use wf_sv39::{Leaf, Walk, frame_of, leaf_of, walk};
use wf_views::Records;

/// The first address past those that are used.
const ADDRESS_END: u64 = 1 << 38;

// The frame of the root of a generation's table.
fn root_of(records: &Records, generation: u32) -> u32
    requires { IsSome (view_of records.now.views generation) }
    ensures { IsRoot records.now generation result }
{
    let Some(view) = records.views.find(generation) else {
        unreachable!();
    };
    view.root
}

// What a leaf for one of so many frames says of its page.
fn page_of_leaf(frames: u32, pte: u64) -> Translation
    requires few { frames ≤ MOST_FRAMES }
    requires leaf { IsLeaf frames pte }
    ensures told { LeafTold frames pte result }
    ensures frame { HasFrame frames result }
{
    let frame = frame_of(pte) as u32;
    match leaf_of(pte) {
        Some(Leaf::Private) => Translation::Text { frame },
        Some(Leaf::Read) => Translation::Data {
            frame,
            write: false,
        },
        Some(Leaf::Write) => Translation::Data { frame, write: true },
        None => unreachable!(),
    }
}

/// What an address is in a generation that lives, by a walk of its table. It takes no memory.
///
/// RISC-V privileged ISA, "Virtual Address Translation Process".
pub fn translate(words: &Words, records: &Records, generation: u32, va: u64) -> Translation
    requires { CanTranslate words.now records.now generation }
    ensures told { AddressTold words.now records.now generation va result }
    ensures frame { HasFrame words.now.frames result }
{
    if va >= ADDRESS_END {
        return Translation::Missing;
    }
    match walk(words, root_of(records, generation), va) {
        Walk::Leaf { pte, path: _ } => page_of_leaf(words.frames(), pte),
        Walk::Missing { level: _ } => Translation::Missing,
        Walk::Far => Translation::Missing,
    }
}
