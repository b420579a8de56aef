//! One entry of a journal.
ghost use Rattle.std.specs.Prelude.{◌≡◌, ◌<◌, ◌+◌, ◌^◌, ◌↔◌, Ok, IfOk, IsTrue, OnOk, true};
ghost use Rattle.wf_outside.specs.declared.sizes.TheConstants.{MOST_FRAMES};
ghost use Rattle.wf_legal.specs.Legal as legal;
ghost use Rattle.wf_sound.specs.Sound.{IsSound};
ghost use Rattle.wf_replay.specs.Replayed.{moment_at};

use std::alloc::Global;
use wf_change::change;
use wf_flat::{Entry, Flat};
use wf_goes::{OpenCall, call_after, goes_on, is_idle_kernel};
use wf_may::{is_inside, may_act};
use wf_outside::{Delta, Memory};
use wf_sound::{allowed_can_be_made, sound_is_within_limits};

/// The machine between two entries: its state, and the call that is open in the kernel.
#[derive(Drop)]
pub struct Replayed {
    pub flat: Flat,
    pub call: Option<OpenCall>,
}

// Whether the entry is allowed.
fn allows(
    alloc: Global,
    replayed: &Replayed,
    deltas: &[Delta],
    entry: Entry,
) -> Result<bool, Memory>
    requires { IsSound (moment_at deltas.now replayed.now) }
    ensures { IfOk result (λ allowed. IsTrue allowed
        ↔ legal.Allows (moment_at deltas.now replayed.now) entry.actor entry.event) }
{
    sound_is_within_limits();
    if is_idle_kernel(entry) {
        return Ok(true);
    }
    let flat = &replayed.flat;
    if is_inside(flat, entry.actor) {
        return goes_on(alloc, flat, deltas, &replayed.call, entry);
    }
    Ok(may_act(flat, entry.actor, entry.event))
}

// What an entry changes that is allowed.
fn pass(
    alloc: Global,
    replayed: &mut Replayed,
    deltas: &[Delta],
    entry: Entry,
) -> Result<(), Memory>
    requires sound { IsSound (moment_at deltas.now replayed.old) }
    requires few { replayed.old.flat.births + MOST_FRAMES < 2 ^ 64 }
    requires allowed { legal.Allows (moment_at deltas.now replayed.old) entry.actor entry.event }
    ensures { OnOk result
        (moment_at deltas.now replayed.new
        ≡ legal.after (moment_at deltas.now replayed.old) entry.actor entry.event) }
{
    sound_is_within_limits();
    allowed_can_be_made();
    let call = replayed.call.take();
    replayed.call = call_after(alloc, &replayed.flat, deltas, call, entry)?;
    change(alloc, &mut replayed.flat, deltas, entry.actor, entry.event)
}

/// Whether the entry is allowed; then it is made.
///
/// # Errors
///
/// `Memory` where memory runs out.
pub fn step(
    alloc: Global,
    replayed: &mut Replayed,
    deltas: &[Delta],
    entry: Entry,
) -> Result<bool, Memory>
    requires sound { IsSound (moment_at deltas.now replayed.old) }
    requires few { replayed.old.flat.births + MOST_FRAMES < 2 ^ 64 }
    ensures allowed { IfOk result (λ allowed. IsTrue allowed
        ↔ legal.Allows (moment_at deltas.now replayed.old) entry.actor entry.event) }
    ensures after { result ≡ Ok true → moment_at deltas.now replayed.new
        ≡ legal.after (moment_at deltas.now replayed.old) entry.actor entry.event }
{
    if !allows(alloc, replayed, deltas, entry)? {
        return Ok(false);
    }
    pass(alloc, replayed, deltas, entry)?;
    Ok(true)
}
