//! What a load-reserved leaves, as the words and records of a process tell.
ghost use Rattle.wf_process.specs.Reserving.{CanFindAt, LeavesReservation};

use crate::finding::found_at;
use wf_access::reserve;
use wf_frames::Words;
use wf_homes::CoreReservation;
use wf_views::Records;

/// What a load-reserved of a generation that lives leaves, of `width` bytes at an address: nothing
/// where it finds no page of data there, or one at its last count of writes.
pub fn reservation_at(
    words: &Words,
    records: &Records,
    generation: u32,
    va: u64,
    width: u8,
) -> Option<CoreReservation>
    requires { CanFindAt words.now records.now generation va }
    ensures { LeavesReservation words.now records.now generation va width result }
{
    let last_writes = records.limits.last_writes;
    match found_at(words, records, generation, va) {
        Some(found) => reserve(words, found.frame, va, width, last_writes),
        None => None,
    }
}
