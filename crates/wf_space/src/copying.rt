//! Pages of text that are copied, with jumps put over them.
ghost use Rattle.std.specs.Prelude.{◌≡◌, ◌≢◌, ◌<◌, ◌%◌, drop, take};
ghost use Rattle.std.specs.Int.{from_le_bytes, w32};
ghost use Rattle.std.specs.List.{AllByRecursion};
ghost use Rattle.wf_outside.specs.declared.sizes.TheConstants.{PAGE_SIZE};
ghost use Rattle.wf_flat.specs.Memory as memory;
ghost use Rattle.wf_flat.specs.Memory.{words_with};
ghost use Rattle.wf_effects.specs.Texts.{IsPlaced};
ghost use Rattle.wf_space.specs.Pieces as pieces;
ghost use Rattle.wf_space.specs.Pieces.{Rewrites};

use wf_frames::{Words, word_place};
use wf_outside::{Jump, PAGE_SIZE, PAGE_WORDS};

// The words of a frame are copied into another, one after another.
fn copy_words(words: &mut Words, source: u32, frame: u32)
    requires source { source < words.old.frames }
    requires frame { frame < words.old.frames }
    requires apart { source ≢ frame }
    ensures frames { words.new.frames ≡ words.old.frames }
    ensures made { Rewrites words.old words.new source frame (λ page. page) }
{
    let frames = words.frames();
    for i in 0..PAGE_WORDS {
        let word = words.get(word_place(frames, source, i));
        words.set(word_place(frames, frame, i), word);
    }
}

// A word of which the low or the high half is that of a number.
fn word_with(word: u64, at: u64, value: u32) -> u64
    requires within { at < 8 }
    requires even { at % 4 ≡ 0 }
    ensures { result ≡ memory.word_with word at 4 value }
{
    let value = u64::from(value);
    if at == 0 {
        word / 0x1_0000_0000 * 0x1_0000_0000 + value
    } else {
        value * 0x1_0000_0000 + word % 0x1_0000_0000
    }
}

// Four bytes at a place of a frame, counted in bytes, are those of a number.
fn put_half(words: &mut Words, frame: u32, at: u64, value: u32)
    requires frame { frame < words.old.frames }
    requires within { at < PAGE_SIZE }
    requires even { at % 4 ≡ 0 }
    ensures frames { words.new.frames ≡ words.old.frames }
    ensures made { Rewrites words.old words.new frame frame (λ page. words_with page at 4 value) }
{
    let place = word_place(words.frames(), frame, (at / 8) as usize);
    let word = words.get(place);
    words.set(place, word_with(word, at % 8, value));
}

// Four bytes at an address are those of a number, where the address is in the page of a number that
// lies in a frame.
fn put_in_page(words: &mut Words, frame: u32, page: u32, at: u64, value: u32)
    requires frame { frame < words.old.frames }
    requires even { at % 4 ≡ 0 }
    ensures frames { words.new.frames ≡ words.old.frames }
    ensures made { Rewrites words.old words.new frame frame (pieces.half_put page at value) }
{
    if at / PAGE_SIZE == u64::from(page) {
        put_half(words, frame, at % PAGE_SIZE, value);
    }
}

// The number of the first four bytes of a jump.
fn first_half(jump: &Jump) -> u32
    ensures { result ≡ from_le_bytes w32 (take 4 jump.now.bytes) }
{
    let b = jump.bytes;
    u32::from_le_bytes([b[0], b[1], b[2], b[3]])
}

// The number of the last four bytes of a jump.
fn last_half(jump: &Jump) -> u32
    ensures { result ≡ from_le_bytes w32 (drop 4 jump.now.bytes) }
{
    let b = jump.bytes;
    u32::from_le_bytes([b[4], b[5], b[6], b[7]])
}

// The bytes of a jump are put over those of the page of a number that lies in a frame.
fn put_jump(words: &mut Words, frame: u32, page: u32, jump: &Jump)
    requires frame { frame < words.old.frames }
    requires placed { IsPlaced jump.now }
    ensures frames { words.new.frames ≡ words.old.frames }
    ensures made { Rewrites words.old words.new frame frame
        (λ words. pieces.jump_put page words jump.now) }
{
    put_in_page(words, frame, page, jump.at, first_half(jump));
    put_in_page(words, frame, page, jump.at + 4, last_half(jump));
}

// The bytes of jumps are put over those of the page of a number that lies in a frame.
fn put_jumps(words: &mut Words, frame: u32, page: u32, jumps: &[Jump])
    requires frame { frame < words.old.frames }
    requires placed { AllByRecursion IsPlaced jumps.now }
    ensures frames { words.new.frames ≡ words.old.frames }
    ensures made { Rewrites words.old words.new frame frame (pieces.jumps_put page jumps.now) }
{
    for jump in jumps {
        put_jump(words, frame, page, jump);
    }
}

/// The words of the frame `source`, in which the page of a number lies, are copied into another
/// frame, with the bytes of jumps put over those of the page.
pub fn copy_frame(words: &mut Words, source: u32, frame: u32, page: u32, jumps: &[Jump])
    requires source { source < words.old.frames }
    requires frame { frame < words.old.frames }
    requires apart { source ≢ frame }
    requires placed { AllByRecursion IsPlaced jumps.now }
    ensures frames { words.new.frames ≡ words.old.frames }
    ensures made { Rewrites words.old words.new source frame (pieces.jumps_put page jumps.now) }
{
    copy_words(words, source, frame);
    put_jumps(words, frame, page, jumps);
}
