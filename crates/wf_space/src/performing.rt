//! Pieces of a plan.
ghost use Rattle.std.specs.Prelude.{◌↔◌, IsTrue};
ghost use Rattle.wf_space.specs.Changes.{MayNote, with_changes};
ghost use Rattle.wf_space.specs.Pieces.{ArePerformed, MayPerform, MayPerformAll, Performs, WearsOut};

use crate::changing::note_all;
use crate::copying::copy_frame;
use crate::leaving::leave_page;
use crate::storing::{fill_frame, make_live};
use wf_frames::Words;
use wf_views::{Piece, Plan, Records};

/// One piece of a plan is performed. What it names is there; a page that leaves is going. It tells
/// whether a page left and wore out the frame that it lay in.
pub fn perform_piece(words: &mut Words, records: &mut Records, piece: Piece) -> bool
    requires { MayPerform words.old records.old piece }
    ensures performed { Performs words.old records.old piece words.new records.new }
    ensures worn { IsTrue result ↔ WearsOut records.old piece records.new }
{
    match piece {
        Piece::Fill { frame, words: page } => {
            fill_frame(words, frame, page.as_slice());
            false
        }
        Piece::Copy {
            from,
            frame,
            page,
            jumps,
        } => {
            copy_frame(words, from, frame, page, jumps.as_slice());
            false
        }
        Piece::Live { frame } => {
            make_live(words, frame, records.frames.incarnation(frame));
            false
        }
        Piece::Pte { at, value } => {
            words.set(at, value);
            false
        }
        Piece::Leave { page } => leave_page(words, records, page),
    }
}

// Pieces are performed one after another.
fn perform_all(words: &mut Words, records: &mut Records, pieces: Vec<Piece>)
    requires { MayPerformAll words.old records.old pieces.items }
    ensures { ArePerformed words.old records.old pieces.items words.new records.new }
{
    for piece in pieces {
        let _worn = perform_piece(words, records, piece);
    }
}

/// A plan is carried out: its changes are made, and then its pieces performed, each in their order.
pub fn carry_out(words: &mut Words, records: &mut Records, plan: Plan)
    requires changes { MayNote records.old plan.changes.items }
    requires pieces { MayPerformAll words.old (with_changes records.old plan.changes.items)
        plan.pieces.items }
    ensures { ArePerformed words.old (with_changes records.old plan.changes.items)
        plan.pieces.items words.new records.new }
{
    let Plan { pieces, changes } = plan;
    note_all(records, changes.into_vec());
    perform_all(words, records, pieces.into_vec());
}
