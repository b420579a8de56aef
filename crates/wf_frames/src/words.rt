//! The words of a machine.
ghost use Rattle.std.specs.Prelude.{◌≡◌, ◌<◌, ◌≤◌, IfOk, length, replicate, slice_index, slice_set};
ghost use Rattle.wf_frames.specs.Layout as layout;

use crate::layout::word_count;
use std::alloc::Global;
use std::marker::Model;
use wf_outside::{Limits, MOST_FRAMES, Memory};

/// The words of a machine, 64 bits each. Word 0 is 0 in a new one, and who calls
/// [`set`](Words::set) keeps it so; then comes the frame word of each frame, then the 512 words of
/// each frame.
#[derive(Drop)]
pub struct Words {
    frames: u32,
    items: Vec<u64>,
}

impl Model for Words {
    ghost use Rattle.wf_frames.specs.Layout.{WordsValue, AreWords};

    ghost Value = { WordsValue };

    ghost view = { λ w. record { frames = w.frames; items = w.items.items } };

    ghost invariant = { λ w. AreWords w.frames w.items.items };
}

impl Words {
    /// The words of a new machine, all 0. They are made in one go: 65,536 frames take about 270 MB.
    pub fn new(alloc: Global, limits: Limits) -> Result<Words, Memory>
        ensures frames { IfOk result (λ w. w.frames ≡ limits.frames) }
        ensures zeros { IfOk result (λ w. w.items ≡ layout.new_words limits.frames) }
    {
        let limits = &limits;
        let frames = limits.frames;
        let items = zeros(alloc, word_count(frames) as usize)?;
        Ok(Words { frames, items })
    }

    /// How many frames the words are for.
    pub fn frames(&self) -> u32
        ensures value { result ≡ self.now.frames }
        ensures few { result ≤ MOST_FRAMES }
    {
        self.frames
    }

    /// How many words there are.
    pub fn len(&self) -> u64
        ensures value { result ≡ length self.now.items }
        ensures count { result ≡ layout.word_count self.now.frames }
    {
        self.items.len() as u64
    }

    /// The word of a number.
    pub fn get(&self, at: u64) -> u64
        requires { at < layout.word_count self.now.frames }
        ensures value { result ≡ slice_index self.now.items at }
        ensures there { at < length self.now.items }
    {
        self.items[at as usize]
    }

    /// The word of a number is now this.
    pub fn set(&mut self, at: u64, v: u64)
        requires { at < layout.word_count self.old.frames }
        ensures value { self.new ≡ record self.old { items = slice_set self.old.items at v } }
        ensures there { at < length self.old.items }
    {
        self.items[at as usize] = v;
    }
}

// So many zeros.
fn zeros(alloc: Global, n: usize) -> Result<Vec<u64>, Memory>
    ensures { IfOk result (λ v. v.items ≡ replicate n 0) }
{
    Ok(vec![in alloc; 0; n]?)
}
