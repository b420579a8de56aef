//! Whole calls of harts.
ghost use Rattle.std.specs.Prelude.{◌≡◌, ◌<◌, ◌+◌, ◌^◌, OnErr, OnOk, length};
ghost use Rattle.wf_outside.specs.declared.sizes.TheConstants.{MOST_FRAMES};
ghost use Rattle.wf_flat.specs.Follows.{IsUnit};
ghost use Rattle.wf_flat.specs.Steps.{OfHart};
ghost use Rattle.wf_legal.specs.Legal.{at_rest};
ghost use Rattle.wf_sound.specs.Sound.{IsSound};
ghost use Rattle.wf_service.specs.Adding.{Adds};
ghost use Rattle.wf_service.specs.Calling.{IsAtCall};
ghost use Rattle.wf_service.specs.Resting.{IsResting};

use crate::beginning::{begin, enter, write_first};
use crate::carrying::go_on;
use crate::copying::{hart_before, pc_of, restore};
use crate::listing::first_event;
use std::alloc::Global;
use wf_flat::{Entry, Flat};
use wf_outside::{Delta, Memory};
use wf_sound::{entries_keep_sound, journals_keep_sound};

/// A whole call of a hart, which is to fetch this word, an ecall: its Fetch, its Enter, what is
/// done about its request, and its End, where it has one. `deltas` are the run's patches.
///
/// # Errors
///
/// `Memory` where memory runs out; then nothing has changed.
pub fn serve_hart(
    alloc: Global,
    flat: &mut Flat,
    deltas: &[Delta],
    journal: &mut Vec<Entry>,
    hart: u8,
    word: u32,
) -> Result<(), Memory>
    requires sound { IsSound (at_rest deltas.now flat.old) }
    requires rests { IsResting flat.old }
    requires births { flat.old.births + MOST_FRAMES < 2 ^ 64 }
    requires ready { OfHart flat.old hart (IsAtCall flat.old word) }
    ensures ok { OnOk result
        (Adds (at_rest deltas.now flat.old) journal.old.items (at_rest deltas.now flat.new)
        journal.new.items (IsUnit hart)) }
    ensures err { OnErr result ((flat.new ≡ flat.old) × (journal.new.items ≡ journal.old.items)) }
    ensures rests { IsResting flat.new }
    ensures harts { length flat.new.harts ≡ length flat.old.harts }
{
    entries_keep_sound();
    journals_keep_sound();
    let before = hart_before(flat, hart)?;
    let pc = pc_of(&before);
    enter(flat, hart, pc, word);
    match begin(alloc, flat, deltas, journal, hart, word) {
        Ok(todo) => {
            write_first(journal, hart, pc, word, first_event(&todo));
            go_on(flat, journal, hart, &todo);
            Ok(())
        }
        Err(memory) => {
            restore(flat, hart, before);
            Err(memory)
        }
    }
}
