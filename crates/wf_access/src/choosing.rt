//! What an access makes of the words that it loaded: the word that is stored, the fields of the
//! frame word, and reservations. Nothing here touches memory.
ghost use Rattle.std.specs.Prelude.{◌≡◌, ◌<◌, ◌≤◌, ◌*◌, ◌^◌};
ghost use Rattle.wf_outside.specs.declared.sizes.TheConstants.{MOST_WRITES};
ghost use Rattle.wf_frames.specs.FrameWords.{AreFields};
ghost use Rattle.wf_flat.specs.Memory as memory;
ghost use Rattle.wf_flat.specs.Serving.{IsPlace};
ghost use Rattle.wf_access.specs.Reserved as spec;
ghost use Rattle.wf_access.specs.Stores as stores;

use wf_frames::FrameWord;
use wf_homes::CoreReservation;

// How many numbers so many bytes have.
fn span_of(bytes: u64) -> u64
    requires { bytes < 8 }
    ensures { result ≡ 2 ^ (8 * bytes) }
{
    1 << (8 * bytes)
}

/// A word in which `width` bytes, 1, 2, 4 or 8, from a place on, a multiple of their count below 8,
/// are the low ones of a number.
pub fn word_with(word: u64, at: u64, width: u8, value: u64) -> u64
    requires within { at < 8 }
    requires place { IsPlace at width }
    ensures { result ≡ memory.word_with word at width value }
{
    if width == 8 {
        return value;
    }
    let low = span_of(at);
    let span = span_of(width as u64);
    (word / low / span * span + value % span) * low + word % low
}

/// The fields of a frame that was written once more; at the last count of writes they stay.
pub fn written_once_more(fields: FrameWord, last_writes: u64) -> FrameWord
    requires fit { AreFields fields }
    requires counts { last_writes ≤ MOST_WRITES }
    ensures value { result ≡ stores.written_once_more last_writes fields }
    ensures fit { AreFields result }
{
    let writes = if fields.writes < last_writes {
        fields.writes + 1
    } else {
        fields.writes
    };
    FrameWord { writes, ..fields }
}

/// What a load-reserved of `width` bytes at an address leaves, whose page lies in this frame, with
/// these fields; `None` at the last count of writes, where a store wouldn't show.
pub fn core_reservation_of(
    fields: FrameWord,
    frame: u32,
    va: u64,
    width: u8,
    last_writes: u64,
) -> Option<CoreReservation>
    ensures { result ≡ spec.core_reservation_of fields frame va width last_writes }
{
    if fields.writes < last_writes {
        Some(CoreReservation {
            va,
            width,
            frame,
            inc: fields.inc,
            writes: fields.writes,
        })
    } else {
        None
    }
}

/// Whether a reservation has this address and width.
pub fn has_core_reserved(reservation: Option<CoreReservation>, va: u64, width: u8) -> bool
    ensures { result ≡ spec.has_core_reserved reservation va width }
{
    match reservation {
        Some(kept) => kept.va == va && kept.width == width,
        None => false,
    }
}

/// Whether a reservation stands for `width` bytes at an address whose page lies in this frame, with
/// these fields: it has them, and the frame wasn't written since, in the same incarnation.
pub fn core_stands(
    fields: FrameWord,
    reservation: Option<CoreReservation>,
    frame: u32,
    va: u64,
    width: u8,
) -> bool
    ensures { result ≡ spec.core_stands fields reservation frame va width }
{
    match reservation {
        Some(kept) => {
            has_core_reserved(reservation, va, width)
                && kept.frame == frame
                && kept.inc == fields.inc
                && kept.writes == fields.writes
        }
        None => false,
    }
}
