//! Stores and atomic memory operations.
ghost use Rattle.std.specs.Prelude.{◌≡◌, ◌<◌, ◌≤◌, ◌==◌};
ghost use Rattle.rv_alu.specs.Arithmetic.{amo_of};
ghost use Rattle.wf_outside.specs.declared.sizes.TheConstants.{MOST_WRITES};
ghost use Rattle.wf_translation.specs.Readings.{frame_number};
ghost use Rattle.wf_access.specs.Stores.{AreInFrame, with_number_at, with_one_more_write, with_store};

use crate::FrameBytes;
use crate::choosing::{word_with, written_once_more};
use crate::words::{load_fields, load_word, store_fields, store_word};
use rv_alu::{AmoOp, amo};
use wf_frames::Words;
use wf_translation::number_at;

// Bytes of a frame are the low ones of a number now.
fn put(words: &mut Words, bytes: FrameBytes, value: u64)
    requires { AreInFrame words.old bytes }
    ensures { words.new ≡ with_number_at words.old bytes value }
{
    let word = load_word(words, bytes.frame, bytes.at);
    let changed = word_with(word, bytes.at % 8, bytes.width, value);
    store_word(words, bytes.frame, bytes.at, changed);
}

// A frame was written once more, unless its count of writes is the last.
fn count_write(words: &mut Words, frame: u32, last_writes: u64)
    requires low { frame < words.old.frames }
    requires counts { last_writes ≤ MOST_WRITES }
    ensures { words.new ≡ with_one_more_write words.old frame last_writes }
{
    let fields = load_fields(words, frame);
    store_fields(words, frame, written_once_more(fields, last_writes));
}

/// A store: bytes of a frame are the low ones of a value now, and the frame was written once more.
/// At the last count of writes the bytes are stored too, and the count stays.
pub fn store(words: &mut Words, bytes: FrameBytes, value: u64, last_writes: u64)
    requires place { AreInFrame words.old bytes }
    requires counts { last_writes ≤ MOST_WRITES }
    ensures { words.new ≡ with_store words.old bytes value last_writes }
{
    put(words, bytes, value);
    count_write(words, bytes.frame, last_writes);
}

/// An atomic memory operation: what it makes of bytes of a frame and a value is stored there. It
/// gives what was there, and is one load and one store.
pub fn swap(words: &mut Words, bytes: FrameBytes, op: AmoOp, value: u64, last_writes: u64) -> u64
    requires place { AreInFrame words.old bytes }
    requires counts { last_writes ≤ MOST_WRITES }
    ensures old { result ≡ frame_number words.old bytes.frame bytes.at bytes.width }
    ensures stored { words.new
        ≡ with_store words.old bytes
        (amo_of op (bytes.width == 8) (frame_number words.old bytes.frame bytes.at bytes.width)
        value)
        last_writes }
{
    let old = number_at(words, bytes.frame, bytes.at, bytes.width);
    let new = amo(op, bytes.width == 8, old, value);
    store(words, bytes, new, last_writes);
    old
}
