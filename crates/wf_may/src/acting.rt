//! What an actor may do outside the kernel.
ghost use Rattle.std.specs.Prelude.{◌≡◌, ◌↔◌, IsTrue};
ghost use Rattle.wf_flat.specs.declared.event.Actor.TheVariants as actors;
ghost use Rattle.wf_flat.specs.declared.state.Life.TheVariants.{Running};
ghost use Rattle.wf_flat.specs.Ordered.{IsOrdered};
ghost use Rattle.wf_flat.specs.Steps as steps;
ghost use Rattle.wf_may.specs.Acting.{MayDo, MayStep};

use crate::ending::may_end;
use crate::looking::{may_fetch, may_look, wants};
use crate::storing::{may_miss, may_put, may_swap, may_take};
use crate::waiting::{is_in_way, may_enter, may_try_again, may_wait};
use wf_flat::{Actor, Event, Flat, FlatHart, Life, WaitFor};

// Whether a hart that runs may make the event.
fn may_step(flat: &Flat, h: u8, hart: &FlatHart, event: Event) -> bool
    requires { IsOrdered flat.now }
    ensures { IsTrue result ↔ MayStep flat.now h hart.now event }
{
    match event {
        Event::Fetch { pc, word } => may_fetch(flat, hart, pc, word),
        Event::Look { va, width, value } => may_look(flat, h, hart, va, width, value),
        Event::Take { page } => may_take(flat, hart, page),
        Event::Put { va, width, value } => may_put(flat, h, hart, va, width, value),
        Event::Swap {
            va,
            width,
            old,
            new,
        } => wants(hart, va, width, true) && may_swap(flat, h, hart, old, new),
        Event::Miss { va } => may_miss(flat, h, hart, va),
        Event::End { pc } => may_end(hart, pc),
        Event::Again { page } => may_try_again(flat, h, hart, page),
        Event::Wait { on } => may_wait(flat, h, hart, on),
        Event::Enter => may_enter(flat, h, hart),
        Event::Sync { .. } | Event::Trap { .. } => false,
        Event::Exit { .. } | Event::Out { .. } => false,
        Event::Idle | Event::Map { .. } => false,
        Event::Going { .. } | Event::Ending { .. } => false,
        Event::Gone { .. } | Event::Born { .. } => false,
        Event::Move { .. } | Event::Dead { .. } => false,
        Event::Refused { .. } => false,
    }
}

// Whether a hart runs.
fn is_running(hart: &FlatHart) -> bool
    ensures { IsTrue result ↔ (hart.now.life ≡ Running) }
{
    match hart.life {
        Life::Running => true,
        Life::Exited { .. } => false,
        Life::Trapped { .. } => false,
    }
}

// Whether a hart that is there may make the event.
fn may_do(flat: &Flat, h: u8, hart: &FlatHart, event: Event) -> bool
    requires { IsOrdered flat.now }
    ensures { IsTrue result ↔ MayDo flat.now h hart.now event }
{
    if event == Event::Idle {
        return !is_running(hart);
    }
    is_running(hart) && may_step(flat, h, hart, event)
}

// Whether the hart of a number may make the event.
fn may_act_as_hart(flat: &Flat, h: u8, event: Event) -> bool
    requires { IsOrdered flat.now }
    ensures { IsTrue result ↔ steps.MayAct flat.now (actors.Hart h) event }
{
    match flat.harts.get(h as usize) {
        Some(hart) => may_do(flat, h, hart, event),
        None => false,
    }
}

// Whether the kernel's own actor may wait for this.
fn may_wait_as_kernel(flat: &Flat, on: WaitFor) -> bool
    ensures { IsTrue result ↔ steps.MayAct flat.now actors.Kernel (Event.Wait on) }
{
    match on {
        WaitFor::Kernel { actor } => is_in_way(flat, Actor::Kernel, actor),
        WaitFor::Page { .. } => false,
    }
}

// Whether the kernel's own actor may make the event.
fn may_act_as_kernel(flat: &Flat, event: Event) -> bool
    ensures { IsTrue result ↔ steps.MayAct flat.now actors.Kernel event }
{
    match event {
        Event::Enter => flat.inside.is_none(),
        Event::Wait { on } => may_wait_as_kernel(flat, on),
        Event::Idle => true,
        Event::Fetch { .. } | Event::Look { .. } => false,
        Event::Take { .. } | Event::Put { .. } => false,
        Event::Swap { .. } | Event::Miss { .. } => false,
        Event::End { .. } | Event::Again { .. } => false,
        Event::Sync { .. } | Event::Trap { .. } => false,
        Event::Exit { .. } | Event::Out { .. } => false,
        Event::Map { .. } | Event::Going { .. } => false,
        Event::Ending { .. } | Event::Gone { .. } => false,
        Event::Born { .. } | Event::Move { .. } => false,
        Event::Dead { .. } | Event::Refused { .. } => false,
    }
}

/// Whether an actor that is not inside the kernel may make the event. It takes time in the
/// logarithm of the pages and of what was met, and one pass over the pages that have moved for its
/// hart.
pub fn may_act(flat: &Flat, actor: Actor, event: Event) -> bool
    requires { IsOrdered flat.now }
    ensures { IsTrue result ↔ steps.MayAct flat.now actor event }
{
    match actor {
        Actor::Hart(h) => may_act_as_hart(flat, h, event),
        Actor::Kernel => may_act_as_kernel(flat, event),
    }
}
