//! What an entry of an actor changes.
ghost use Rattle.std.specs.Prelude.{◌≡◌, [], true, OnErr, OnOk};
ghost use Rattle.wf_flat.specs.declared.event.Actor.TheVariants as actors;
ghost use Rattle.wf_legal.specs.Events.{flat_after};
ghost use Rattle.wf_sound.specs.Making.{CanBeMade};
ghost use Rattle.wf_change.specs.Own.{is_own};

use crate::paging::{answer, close, delete, drop_page, end_page, go, map, refuse};
use crate::trying::{again, end, look, put, sync, take, wait};
use std::alloc::Global;
use wf_effects::{PageRun, generation_born, hart_moved};
use wf_flat::{Actor, Event, Flat};
use wf_outside::{Delta, Memory};

// The change of an entry that harts alone make, by this hart.
fn change_by_hart(alloc: Global, flat: &mut Flat, h: u8, event: Event) -> Result<(), Memory>
    requires own { is_own event ≡ true }
    requires can { CanBeMade [] flat.old (actors.Hart h) event }
    ensures state { OnOk result (flat.new ≡ flat_after [] flat.old (actors.Hart h) event) }
    ensures unchanged { OnErr result (flat.new ≡ flat.old) }
{
    match event {
        Event::Take { page } => return take(alloc, flat, h, page),
        Event::End { .. } => return end(alloc, flat, h),
        Event::Sync { generation, page } => return sync(alloc, flat, h, generation, page),
        Event::Fetch { pc, word } => flat.fetch(h, pc, word),
        Event::Look { va, width, value } => look(flat, h, va, width, value),
        Event::Put { va, width, value } => put(flat, h, va, width, value),
        Event::Swap {
            va,
            width,
            old,
            new,
        } => flat.swap(h, va, width, old, new),
        Event::Miss { va } => flat.miss(h, va),
        Event::Again { .. } => again(flat, h),
        Event::Wait { .. } => wait(flat, h),
        Event::Trap { cause, value } => flat.trap(h, cause, value),
        Event::Exit { code } => flat.exit(h, code),
        Event::Move { generation } => hart_moved(flat, h, generation),
        Event::Enter | Event::Idle | Event::Out { .. } => {}
        Event::Map { .. } | Event::Going { .. } => {}
        Event::Ending { .. } | Event::Gone { .. } => {}
        Event::Born { .. } | Event::Dead { .. } => {}
        Event::Refused { .. } => {}
    }
    Ok(())
}

// The change of an entry that harts alone make; the kernel's own actor changes nothing by it.
fn change_own(alloc: Global, flat: &mut Flat, actor: Actor, event: Event) -> Result<(), Memory>
    requires own { is_own event ≡ true }
    requires can { CanBeMade [] flat.old actor event }
    ensures state { OnOk result (flat.new ≡ flat_after [] flat.old actor event) }
    ensures unchanged { OnErr result (flat.new ≡ flat.old) }
{
    match actor {
        Actor::Hart(h) => change_by_hart(alloc, flat, h, event),
        Actor::Kernel => Ok(()),
    }
}

/// The change of an entry of an actor; `deltas` are the run's patches. It takes time in the
/// logarithm of the pages; where pages or generations come or go, one pass over the pages, over
/// what was met, over the parent's text and over the places that generations reach; and where pages
/// move, for each hart that is in a try, time in what has moved for it times these pages.
///
/// # Errors
///
/// `Memory` where memory runs out; then nothing has changed.
pub fn change(
    alloc: Global,
    flat: &mut Flat,
    deltas: &[Delta],
    actor: Actor,
    event: Event,
) -> Result<(), Memory>
    requires { CanBeMade deltas.now flat.old actor event }
    ensures state { OnOk result (flat.new ≡ flat_after deltas.now flat.old actor event) }
    ensures unchanged { OnErr result (flat.new ≡ flat.old) }
{
    match event {
        Event::Map {
            page,
            n,
            write,
            patch,
        } => {
            let run = PageRun {
                first: page,
                count: n,
                write,
            };
            map(alloc, flat, deltas, actor, run, patch)
        }
        Event::Going { page, n } => go(alloc, flat, actor, page, n),
        Event::Ending { page } => end_page(alloc, flat, actor, page),
        Event::Gone { page, worn } => drop_page(alloc, flat, actor, page, worn),
        Event::Born {
            generation,
            parent,
            patch,
        } => {
            generation_born(alloc, flat, deltas, parent, patch)?;
            close(flat, actor, generation as u64);
            Ok(())
        }
        Event::Dead { generation } => {
            delete(flat, actor, generation);
            Ok(())
        }
        Event::Refused { reason } => {
            refuse(flat, actor, reason);
            Ok(())
        }
        Event::Out { .. } => {
            answer(flat, actor, 0);
            Ok(())
        }
        Event::Enter => {
            flat.enter(actor);
            Ok(())
        }
        Event::Idle => Ok(()),
        Event::Fetch { .. } | Event::Look { .. } => change_own(alloc, flat, actor, event),
        Event::Take { .. } | Event::Put { .. } => change_own(alloc, flat, actor, event),
        Event::Swap { .. } | Event::Miss { .. } => change_own(alloc, flat, actor, event),
        Event::End { .. } | Event::Again { .. } => change_own(alloc, flat, actor, event),
        Event::Wait { .. } | Event::Sync { .. } => change_own(alloc, flat, actor, event),
        Event::Trap { .. } | Event::Exit { .. } => change_own(alloc, flat, actor, event),
        Event::Move { .. } => change_own(alloc, flat, actor, event),
    }
}
