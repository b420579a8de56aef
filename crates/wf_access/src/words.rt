//! The two words that an access touches behind its walk, each read and stored by itself: the frame
//! word, and the word of the frame that has the bytes.
ghost use Rattle.std.specs.Prelude.{◌≡◌, ◌<◌, ◌/◌};
ghost use Rattle.wf_outside.specs.declared.sizes.TheConstants.{PAGE_SIZE};
ghost use Rattle.wf_frames.specs.FrameWords.{AreFields, word_of};
ghost use Rattle.wf_frames.specs.Layout as layout;
ghost use Rattle.wf_homes.specs.Kept.{fields_at, with_word, word_of_frame};

use wf_frames::{FrameWord, Words, frame_fields, frame_word, frame_word_place, word_place};

/// The fields of a frame's word.
pub fn load_fields(words: &Words, frame: u32) -> FrameWord
    requires { frame < words.now.frames }
    ensures value { result ≡ fields_at words.now frame }
    ensures fit { AreFields result }
{
    frame_fields(words.get(frame_word_place(frame)))
}

/// A frame's word has these fields now.
pub fn store_fields(words: &mut Words, frame: u32, fields: FrameWord)
    requires low { frame < words.old.frames }
    requires fit { AreFields fields }
    ensures { words.new
        ≡ with_word words.old (layout.frame_word_place frame) (word_of fields) }
{
    words.set(frame_word_place(frame), frame_word(fields));
}

/// The word of a frame that has the byte at a place, which is below 4,096.
pub fn load_word(words: &Words, frame: u32, at: u64) -> u64
    requires low { frame < words.now.frames }
    requires within { at < PAGE_SIZE }
    ensures { result ≡ word_of_frame words.now frame (at / 8) }
{
    words.get(word_place(words.frames(), frame, (at / 8) as usize))
}

/// The word of a frame that has the byte at a place, which is below 4,096, is this now.
pub fn store_word(words: &mut Words, frame: u32, at: u64, word: u64)
    requires low { frame < words.old.frames }
    requires within { at < PAGE_SIZE }
    ensures { words.new
        ≡ with_word words.old (layout.word_place words.old.frames frame (at / 8)) word }
{
    let place = word_place(words.frames(), frame, (at / 8) as usize);
    words.set(place, word);
}
