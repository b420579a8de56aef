//! What one operation on a frame word makes of its fields.
ghost use Rattle.std.specs.Prelude.{◌≡◌, ◌+◌, true, false, bit_and};
ghost use Rattle.wf_frames.specs.FrameWords.{AreFields, word_of};
ghost use Rattle.wf_frames.specs.declared.fields.FrameWord.{FrameWord};

use crate::fields::{ALL_BUT_LIVE, ALL_BUT_TAKEN};

/// One more makes a frame word that isn't taken taken, and one that is taken given back with one
/// more write; without bit 0 it is given back, and without bit 63 it isn't live. All else stays.
pub fn frame_words_change()
    ensures takes { (f : FrameWord) → f.taken ≡ false
        → word_of f + 1 ≡ word_of (record f { taken = true }) }
    ensures gives_written { (f : FrameWord) → f.taken ≡ true
        → word_of f + 1 ≡ word_of (record f { taken = false; writes = f.writes + 1 }) }
    ensures gives { (f : FrameWord) → AreFields f
        → bit_and (word_of f) ALL_BUT_TAKEN ≡ word_of (record f { taken = false }) }
    ensures ends { (f : FrameWord) → AreFields f
        → bit_and (word_of f) ALL_BUT_LIVE ≡ word_of (record f { live = false }) }
{}
