//! Bytes in frames, and words of text.
ghost use Rattle.std.specs.Prelude.{◌≡◌, ◌<◌, ◌*◌, ◌/◌, ◌%◌, ◌^◌};
ghost use Rattle.wf_outside.specs.declared.sizes.TheConstants.{PAGE_SIZE};
ghost use Rattle.wf_flat.specs.Serving.{IsWidth};
ghost use Rattle.wf_homes.specs.Kept.{word_of_frame};
ghost use Rattle.wf_translation.specs.Readings.{FetchIsRight, frame_number};
ghost use Rattle.wf_translation.specs.Translations.{CanTranslate};

use crate::{Translation, translate};
use wf_frames::{Words, word_place};
use wf_outside::PAGE_SIZE;
use wf_views::Records;

// The word of a frame in which a byte is, shifted down so that the byte is the lowest.
fn word_from(words: &Words, frame: u32, at: u64) -> u64
    requires low { frame < words.now.frames }
    requires within { at < PAGE_SIZE }
    ensures { result ≡ word_of_frame words.now frame (at / 8) / 2 ^ (8 * (at % 8)) }
{
    let word = words.get(word_place(words.frames(), frame, (at / 8) as usize));
    word >> (8 * (at % 8))
}

/// The number of `width` bytes of a frame, 1, 2, 4 or 8, from a place on, lowest first. The place
/// is a multiple of their count, below 4,096.
pub fn number_at(words: &Words, frame: u32, at: u64, width: u8) -> u64
    requires low { frame < words.now.frames }
    requires within { at < PAGE_SIZE }
    requires width { IsWidth width }
    ensures { result ≡ frame_number words.now frame at width }
{
    let number = word_from(words, frame, at);
    match width {
        1 => number % (1 << 8),
        2 => number % (1 << 16),
        4 => number % (1 << 32),
        _ => number,
    }
}

// The four bytes of a frame at a place.
fn word_at(words: &Words, frame: u32, at: u64) -> u32
    requires low { frame < words.now.frames }
    requires within { at < PAGE_SIZE }
    ensures { result ≡ frame_number words.now frame at 4 }
{
    (word_from(words, frame, at) % (1 << 32)) as u32
}

/// The four bytes at an address of a generation's text, a multiple of 4; `None` where its page is
/// no text of the generation, which lives. It takes no memory.
pub fn fetch(words: &Words, records: &Records, generation: u32, pc: u64) -> Option<u32>
    requires { CanTranslate words.now records.now generation }
    ensures { FetchIsRight words.now records.now generation pc result }
{
    match translate(words, records, generation, pc) {
        Translation::Text { frame } => Some(word_at(words, frame, pc % PAGE_SIZE)),
        Translation::Data { frame: _, write: _ } => None,
        Translation::Missing => None,
    }
}
