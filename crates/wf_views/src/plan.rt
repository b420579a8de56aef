//! What a call of the kernel is to do: steps on words, and changes of the records.
ghost use Rattle.std.specs.Prelude.{◌≡◌, []};

use crate::{Listed, NodeAt, PageAt, Roomy, View};
use std::alloc::Global;
use wf_outside::Jump;

/// What is done to words.
#[derive(Drop)]
pub enum Piece {
    /// The 512 words of a frame that nobody reaches are stored, one after another.
    Fill {
        frame: u32,
        words: Listed<u64>,
    },
    /// The 512 words of the frame `from` of a text page are copied one after another into a frame
    /// that nobody reaches, with the bytes of these jumps put over those of the page.
    Copy {
        from: u32,
        frame: u32,
        page: u32,
        jumps: Listed<Jump>,
    },
    /// The frame word of a frame is live in its next incarnation, with no writes and not taken.
    Live {
        frame: u32,
    },
    /// An entry of a live view, the word at this place, is stored.
    Pte {
        at: u64,
        value: u64,
    },
    /// The live bit of a page's frame word is cleared, and the page leaves.
    Leave {
        page: u32,
    },
}

/// What is changed in the records, beside the pages that leave.
#[derive(Drop)]
pub enum Change {
    /// A free frame is taken, and its incarnation raised where it is to be data.
    Mark { frame: u32, raise: bool },
    /// One more data page.
    Page { page: PageAt },
    /// A data page is going.
    Going { page: u32 },
    /// A view has one more node.
    Node { generation: u32, node: NodeAt },
    /// A view reaches one more place, the number of a page divided by 512.
    Reach { generation: u32, place: u32 },
    /// A view has met one more page.
    Met { generation: u32, page: u32 },
    /// So many more data pages were born.
    Birth { n: u64 },
    /// One more view.
    Born { view: View },
    /// A hart moves from the view of one generation to that of another.
    Move { hart: u8, from: u32, to: u32 },
    /// The view of a generation is taken out, and its frames are given back.
    Dead { generation: u32 },
}

/// What a call is to do: its pieces and its changes, each in order, with room for more.
#[derive(Drop)]
pub struct Plan {
    pub pieces: Roomy<Piece>,
    pub changes: Roomy<Change>,
}

impl Plan {
    /// Nothing to do, and no room.
    pub fn new(alloc: Global) -> Plan
        ensures pieces { result.pieces ≡ record { items = []; room = 0 } }
        ensures changes { result.changes ≡ record { items = []; room = 0 } }
    {
        Plan {
            pieces: Roomy::new(alloc),
            changes: Roomy::new(alloc),
        }
    }
}
