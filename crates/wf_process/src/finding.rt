//! What an access finds in the data of a process.
ghost use Rattle.std.specs.Prelude.{◌≡◌, ◌<◌};
ghost use Rattle.wf_flat.specs.Serving.{IsPlace};
ghost use Rattle.wf_translation.specs.Translations.{CanTranslate};
ghost use Rattle.wf_process.specs.Finding.{FoundIsRight, TextIsRight, found_in as found};

use wf_frames::{Words, frame_fields, frame_word_place};
use wf_outside::PAGE_SIZE;
use wf_translation::{Translation, number_at, translate};
use wf_views::Records;

/// The first address past those that are used.
const ADDRESS_END: u64 = 1 << 38;

/// What an access finds in the data. Frames are counted from 0.
#[derive(Clone, Copy, Debug, PartialEq, Eq)]
pub struct Found {
    /// The page.
    pub page: u32,
    /// The frame in which it lies.
    pub frame: u32,
    /// Whether it may be written.
    pub write: bool,
    /// Its count of writes.
    pub writes: u64,
    /// Whether that is the last.
    pub last: bool,
    /// Whether the generation has met it.
    pub met: bool,
}

// A page that lies in a frame, whose word tells its count of writes.
fn found_in(words: &Words, last_writes: u64, page: u32, frame: u32, write: bool, met: bool) -> Found
    requires { frame < words.now.frames }
    ensures { result ≡ found words.now last_writes page frame write met }
{
    let fields = frame_fields(words.get(frame_word_place(frame)));
    Found {
        page,
        frame,
        write,
        writes: fields.writes,
        last: fields.writes >= last_writes,
        met,
    }
}

/// What an access of a generation that lives finds in the data at an address: by the walk of its
/// table, and where that finds no leaf, by the records. It takes no memory.
pub fn found_at(words: &Words, records: &Records, generation: u32, va: u64) -> Option<Found>
    requires { CanTranslate words.now records.now generation }
    ensures { FoundIsRight words.now records.now generation va result }
{
    if va >= ADDRESS_END {
        return None;
    }
    let page = (va / PAGE_SIZE) as u32;
    let last = records.limits.last_writes;
    match translate(words, records, generation, va) {
        Translation::Text { frame: _ } => None,
        Translation::Data { frame, write } => {
            Some(found_in(words, last, page, frame, write, true))
        }
        Translation::Missing => match records.pages.find(page) {
            Some(unmet) => Some(found_in(words, last, page, unmet.frame, unmet.write, false)),
            None => None,
        },
    }
}

/// The bytes at an address of a generation that lives, where its page is text of the generation.
pub fn text_number(
    words: &Words,
    records: &Records,
    generation: u32,
    va: u64,
    width: u8,
) -> Option<u64>
    requires can { CanTranslate words.now records.now generation }
    requires place { IsPlace va width }
    ensures { TextIsRight words.now records.now generation va width result }
{
    match translate(words, records, generation, va) {
        Translation::Text { frame } => Some(number_at(words, frame, va % PAGE_SIZE, width)),
        Translation::Data { frame: _, write: _ } => None,
        Translation::Missing => None,
    }
}
