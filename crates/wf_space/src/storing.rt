//! Words that are stored.
ghost use Rattle.std.specs.Prelude.{◌≡◌, ◌<◌, ◌^◌, length};
ghost use Rattle.wf_homes.specs.Kept.{fields_at};
ghost use Rattle.wf_space.specs.Pieces.{IsFilled, with_live, without_live};

use wf_frames::{
    ALL_BUT_LIVE, FrameWord, Words, frame_fields, frame_word, frame_word_place, word_place,
};
use wf_outside::PAGE_WORDS;

/// The words of a frame are stored, one after another.
pub fn fill_frame(words: &mut Words, frame: u32, page: &[u64])
    requires low { frame < words.old.frames }
    requires whole { length page.now ≡ PAGE_WORDS }
    ensures { IsFilled words.old words.new frame page.now }
{
    let frames = words.frames();
    for (i, word) in page.iter().enumerate() {
        words.set(word_place(frames, frame, i), *word);
    }
}

/// The frame word of a frame is live in an incarnation, not written yet, and not taken.
pub fn make_live(words: &mut Words, frame: u32, inc: u64)
    requires low { frame < words.old.frames }
    requires fits { inc < 2 ^ 23 }
    ensures { words.new ≡ with_live words.old frame inc }
{
    let word = frame_word(FrameWord {
        taken: false,
        writes: 0,
        inc,
        live: true,
    });
    words.set(frame_word_place(frame), word);
}

/// The live bit of a frame's word is cleared. It tells whether the frame was taken.
pub fn clear_live(words: &mut Words, frame: u32) -> bool
    requires { frame < words.old.frames }
    ensures changed { words.new ≡ without_live words.old frame }
    ensures taken { result ≡ (fields_at words.old frame).taken }
{
    let at = frame_word_place(frame);
    let word = words.get(at);
    words.set(at, word & ALL_BUT_LIVE);
    frame_fields(word).taken
}
