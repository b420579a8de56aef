//! Pages that go, and whether an event is the next thing to do.
ghost use Rattle.std.specs.Prelude.{◌≡◌, ◌≤◌, ◌↔◌, IfOk, IsTrue, IsSomeAnd, List, true, slice_get};
ghost use Rattle.std.specs.List.{AllByRecursion};
ghost use Rattle.wf_flat.specs.Memory.{data_in};
ghost use Rattle.wf_flat.specs.Ordered.{IsOrdered};
ghost use Rattle.wf_legal.specs.Calls as calls;
ghost use Rattle.wf_verdict.specs.declared.work.Todo.{Todo as TodoValue};

use crate::Owed;
use std::alloc::Global;
use wf_flat::{Event, Flat, FlatPage, Stage};
use wf_outside::Memory;
use wf_verdict::Todo;

// Whether the page is Ending, and nobody holds it.
fn may_go(page: &FlatPage) -> bool
    ensures { result ≡ calls.may_go page.now }
{
    match page.stage {
        Stage::Here => false,
        Stage::Going => false,
        Stage::Ending => page.holder.is_none(),
    }
}

/// The pages that a call owes at its Enter. It takes one pass over the pages.
pub fn owed_by(alloc: Global, flat: &Flat) -> Result<Owed, Memory>
    requires { IsOrdered flat.now }
    ensures { IfOk result (λ owed. owed ≡ calls.owed_by flat.now) }
{
    let mut numbers = Vec::new(alloc);
    for page in &flat.pages {
        if may_go(page) {
            numbers.push(page.number)?;
        }
    }
    Ok(Owed::new(numbers))
}

// Whether the frame of a page that goes may be worn.
fn may_wear(flat: &Flat) -> bool
    ensures { IsTrue result ↔ (flat.now.limits.last_birth ≤ flat.now.births) }
{
    flat.limits.last_birth <= flat.births
}

// Whether the event is the Gone of the page, and its frame is worn only where it may be.
fn is_gone(flat: &Flat, page: u32, event: Event) -> bool
    ensures { IsTrue result ↔ calls.IsGone flat.now page event }
{
    event == Event::Gone { page, worn: false }
        || event == Event::Gone { page, worn: true } && may_wear(flat)
}

// Whether the page of a number is there, Ending and free.
fn is_to_go(flat: &Flat, page: u32) -> bool
    requires { IsOrdered flat.now }
    ensures { IsTrue result
        ↔ IsSomeAnd (data_in flat.now.pages page) (λ found. calls.may_go found ≡ true) }
{
    match flat.data_page(page as u64) {
        Some(found) => may_go(found),
        None => false,
    }
}

// Whether the number is above that of the last page that went.
fn is_above(last: Option<u32>, page: u32) -> bool
    ensures { result ≡ calls.is_above last page }
{
    match last {
        Some(last) => last < page,
        None => true,
    }
}

// Whether no page is owed below this one.
fn is_least(owed: &Owed, page: u32) -> bool
    ensures { IsTrue result ↔ AllByRecursion (λ other. page ≤ other) owed.now }
{
    match owed.first() {
        Some(first) => page <= first,
        None => true,
    }
}

/// Whether a call that settles lets a page go with the event.
pub fn settles(flat: &Flat, owed: &Owed, last: Option<u32>, event: Event) -> bool
    requires { IsOrdered flat.now }
    ensures { IsTrue result ↔ calls.Settles flat.now owed.now last event }
{
    let Event::Gone { page, .. } = event else {
        return false;
    };
    if !is_gone(flat, page, event) || !is_to_go(flat, page) {
        return false;
    }
    is_above(last, page) && is_least(owed, page)
}

// Whether the page of a number, if it is there, leaves with the event.
fn is_leaving(flat: &Flat, page: u32, event: Event) -> bool
    requires { IsOrdered flat.now }
    ensures { IsTrue result
        ↔ calls.IsLeaving flat.now page (data_in flat.now.pages page) event }
{
    let Some(found) = flat.data_page(page as u64) else {
        return false;
    };
    if found.holder.is_none() {
        is_gone(flat, page, event)
    } else {
        event == Event::Ending { page }
    }
}

/// Whether the event is the first thing to do; `None` is that there is nothing to do.
pub fn is_next(flat: &Flat, first: Option<Todo>, event: Event) -> bool
    requires { IsOrdered flat.now }
    ensures { (todo : List TodoValue) → first ≡ slice_get todo 0
        → IsTrue result ↔ calls.IsNext flat.now todo event }
{
    let Some(todo) = first else {
        return false;
    };
    match todo {
        Todo::Exactly { event: next } => event == next,
        Todo::Leaves { page } => is_leaving(flat, page, event),
    }
}
