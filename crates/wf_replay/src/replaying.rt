//! Journals, entry by entry.
ghost use Rattle.std.specs.Prelude.{◌≡◌, ◌≢◌, ◌<◌, ◌+◌, ◌*◌, ◌^◌, ◌↔◌, ℕ, Err, IfOk, IsOk, length};
ghost use Rattle.wf_outside.specs.declared.sizes.TheConstants.{MOST_FRAMES};
ghost use Rattle.wf_flat.specs.declared.event.Event.{Event};
ghost use Rattle.wf_legal.specs.Legal.{IsLegal, at_rest, end_of};
ghost use Rattle.wf_sound.specs.Sound.{IsSound};
ghost use Rattle.wf_replay.specs.Replayed.{IsFirstIllegal};

use crate::ReplayFault;
use crate::stepping::{Replayed, step};
use std::alloc::Global;
use wf_flat::{Entry, Flat};
use wf_outside::Delta;
use wf_sound::{births_are_few, journals_keep_sound};

/// The state at the end of a journal that the machine allows from a start on, where `deltas` are
/// the patches of the run. A call may be open at the end. It takes time and memory in proportion to
/// the journal and to the state.
///
/// # Errors
///
/// `Bad` where an entry is not allowed: the place of the first that is not, and its event. `Memory`
/// where memory runs out.
pub fn replay(
    alloc: Global,
    start: Flat,
    journal: &[Entry],
    deltas: &[Delta],
) -> Result<Flat, ReplayFault>
    requires sound { IsSound (at_rest deltas.now start) }
    requires few { start.births + 2 * MOST_FRAMES + length journal.now < 2 ^ 64 }
    // Unless memory runs out, there is an end exactly where the journal is legal, and it is that of
    // the definitions; and a place and an event are told exactly where they are the first that the
    // machine does not allow.
    ensures legal { result ≢ Err ReplayFault.Memory
        → IsOk result ↔ IsLegal (at_rest deltas.now start) journal.now }
    ensures end { IfOk result (λ end. end ≡ (end_of (at_rest deltas.now start) journal.now).flat) }
    ensures bad { result ≢ Err ReplayFault.Memory → (index : ℕ) (rule : Event)
        → (result ≡ Err (ReplayFault.Bad index rule))
        ↔ IsFirstIllegal (at_rest deltas.now start) journal.now index rule }
{
    journals_keep_sound();
    births_are_few();
    let mut replayed = Replayed {
        flat: start,
        call: None,
    };
    for i in 0..journal.len() {
        if !step(alloc, &mut replayed, deltas, journal[i])? {
            return Err(ReplayFault::Bad {
                index: i as u64,
                rule: journal[i].event,
            });
        }
    }
    Ok(replayed.flat)
}
