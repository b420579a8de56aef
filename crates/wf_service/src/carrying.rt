//! How the call of a hart goes on: nothing that it has still to do takes memory.
ghost use Rattle.std.specs.Prelude.{◌≡◌, ◌≢◌, ◌≤◌, ◌<◌, ◌+◌, [], List, Some, false, length, vec_len, vec_capacity};
ghost use Rattle.rv_inst.specs.declared.want.Want.TheVariants as want;
ghost use Rattle.wf_outside.specs.declared.sizes.TheConstants.{MOST_FRAMES};
ghost use Rattle.wf_outside.specs.Images.{DeltaValue};
ghost use Rattle.wf_flat.specs.declared.event.Actor.TheVariants.{Hart};
ghost use Rattle.wf_flat.specs.declared.event.Event.TheVariants as events;
ghost use Rattle.wf_flat.specs.declared.event.Entry.{Entry as FlatEntry};
ghost use Rattle.wf_flat.specs.Changes.{try_ended};
ghost use Rattle.wf_flat.specs.Follows.{IsUnit};
ghost use Rattle.wf_flat.specs.Ordered.{IsOrdered};
ghost use Rattle.wf_flat.specs.Serving.{IsAlone};
ghost use Rattle.wf_flat.specs.Steps.{OfHart, want_in};
ghost use Rattle.wf_legal.specs.Calls.{later};
ghost use Rattle.wf_legal.specs.Events.{flat_after};
ghost use Rattle.wf_legal.specs.Legal.{Moment, at_rest};
ghost use Rattle.wf_service.specs.Adding.{Adds};
ghost use Rattle.wf_service.specs.Calling.{HasToDo, IsPartOf, moment_with};
ghost use Rattle.wf_service.specs.Resting.{IsResting};

use crate::appending::append;
use crate::listing::first_of;
use wf_effects::page_gone;
use wf_flat::{Actor, Entry, Event, Flat};
use wf_may::arch_after;
use wf_sound::entries_keep_sound;
use wf_verdict::Todo;

// The change of a Gone by this hart, where no other is in a try. Its frame is not worn: a run has
// fewer mappings than the last incarnation of a frame counts.
fn let_go(flat: &mut Flat, hart: u8, page: u32)
    requires ordered { IsOrdered flat.old }
    requires room { flat.old.worn < MOST_FRAMES }
    requires alone { IsAlone flat.old hart }
    ensures { (deltas : List DeltaValue)
        → flat.new ≡ flat_after deltas flat.old (Hart hart) (events.Gone page false) }
{
    page_gone(flat, page, false);
}

// The change of an End by this hart, which is in a call.
fn end_call(flat: &mut Flat, hart: u8)
    requires { OfHart flat.old hart (λ state. want_in state ≡ Some want.Call) }
    ensures { flat.new ≡ try_ended flat.old hart }
{
    let next = arch_after(&flat.harts[hart as usize]);
    flat.finish(hart, next);
}

// The first of what a hart's call has still to do is done.
fn carry_out(flat: &mut Flat, journal: &mut Vec<Entry>, hart: u8, todo: &[Todo])
    requires room { vec_len journal.old < vec_capacity journal.old }
    requires some { todo.now ≢ [] }
    requires left { HasToDo flat.old hart todo.now }
    ensures adds { (m : Moment) (before : List FlatEntry)
        → Adds m before (moment_with m.deltas flat.old todo.now) journal.old.items
        (IsPartOf hart todo.now)
        → Adds m before (moment_with m.deltas flat.new (later todo.now)) journal.new.items
        (IsPartOf hart (later todo.now)) }
    ensures left { HasToDo flat.new hart (later todo.now) }
    ensures harts { length flat.new.harts ≡ length flat.old.harts }
    ensures len { vec_len journal.new ≡ vec_len journal.old + 1 }
    ensures capacity { vec_capacity journal.new ≡ vec_capacity journal.old }
{
    entries_keep_sound();
    match first_of(todo) {
        Todo::Leaves { page } => {
            let_go(flat, hart, page);
            append(
                journal,
                Actor::Hart(hart),
                Event::Gone { page, worn: false },
            );
        }
        Todo::Exactly { event } => {
            end_call(flat, hart);
            append(journal, Actor::Hart(hart), event);
        }
    }
}

/// All but the first of what a hart's call has to do is done.
pub fn go_on(flat: &mut Flat, journal: &mut Vec<Entry>, hart: u8, todo: &[Todo])
    requires room { vec_len journal.old + length todo.now ≤ vec_capacity journal.old + 1 }
    requires some { todo.now ≢ [] }
    requires left { HasToDo flat.old hart (later todo.now) }
    ensures adds { (m : Moment) (before : List FlatEntry)
        → Adds m before (moment_with m.deltas flat.old (later todo.now)) journal.old.items
        (IsPartOf hart (later todo.now))
        → Adds m before (at_rest m.deltas flat.new) journal.new.items (IsUnit hart) }
    ensures rests { IsResting flat.new }
    ensures harts { length flat.new.harts ≡ length flat.old.harts }
{
    for i in 1..todo.len() {
        carry_out(flat, journal, hart, &todo[i..]);
    }
}
