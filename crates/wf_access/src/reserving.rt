//! Reservations of bytes in words: they are made, and tested.
ghost use Rattle.std.specs.Prelude.{◌≡◌, ◌<◌};
ghost use Rattle.wf_homes.specs.Kept.{fields_at};
ghost use Rattle.wf_access.specs.Reserved as spec;

use crate::choosing::{core_reservation_of, core_stands};
use crate::words::load_fields;
use wf_frames::Words;
use wf_homes::CoreReservation;

/// What a load-reserved of `width` bytes at an address leaves, whose page lies in this frame;
/// `None` at the last count of writes.
pub fn reserve(
    words: &Words,
    frame: u32,
    va: u64,
    width: u8,
    last_writes: u64,
) -> Option<CoreReservation>
    requires { frame < words.now.frames }
    ensures { result
        ≡ spec.core_reservation_of (fields_at words.now frame) frame va width last_writes }
{
    core_reservation_of(load_fields(words, frame), frame, va, width, last_writes)
}

/// Whether a reservation stands for `width` bytes at an address whose page lies in this frame.
pub fn reservation_stands(
    words: &Words,
    reservation: Option<CoreReservation>,
    frame: u32,
    va: u64,
    width: u8,
) -> bool
    requires { frame < words.now.frames }
    ensures { result ≡ spec.core_stands (fields_at words.now frame) reservation frame va width }
{
    core_stands(load_fields(words, frame), reservation, frame, va, width)
}
