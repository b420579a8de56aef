//! Where a hart may enter the kernel, try again, or wait.
ghost use Rattle.std.specs.Prelude.{◌≡◌, ◌↔◌, IsTrue, None};
ghost use Rattle.wf_flat.specs.Accesses as accesses;
ghost use Rattle.wf_flat.specs.Memory.{data_in};
ghost use Rattle.wf_flat.specs.Ordered.{IsOrdered};
ghost use Rattle.wf_flat.specs.Steps as steps;

use crate::asking::ask_of;
use crate::finding::{has_moved, holds, in_reach, is_going, is_holder};
use crate::wanting::access_in;
use wf_flat::{Actor, Flat, FlatHart, FlatPage, WaitFor};
use wf_outside::PAGE_SIZE;

// Whether a hart may enter the kernel.
pub fn may_enter(flat: &Flat, h: u8, hart: &FlatHart) -> bool
    requires { IsOrdered flat.now }
    ensures { IsTrue result ↔ steps.MayEnter flat.now h hart.now }
{
    flat.inside.is_none() && ask_of(flat, h, hart).is_some()
}

// Whether the page of data of a number is Going.
fn is_page_going(flat: &Flat, page: u32) -> bool
    requires { IsOrdered flat.now }
    ensures { result ≡ steps.is_page_going (data_in flat.now.pages page) }
{
    match flat.data_page(page as u64) {
        Some(found) => is_going(found),
        None => false,
    }
}

// Whether a hart may give up its try of an access to this page.
pub fn may_try_again(flat: &Flat, h: u8, hart: &FlatHart, page: u32) -> bool
    requires { IsOrdered flat.now }
    ensures { IsTrue result
        ↔ steps.MayTryAgain flat.now h hart.now (steps.access_in hart.now) page }
{
    let Some(access) = access_in(hart) else {
        return false;
    };
    if page as u64 != access.va / PAGE_SIZE || hart.looked.is_some() || holds(flat, h, access) {
        return false;
    }
    has_moved(hart, page as u64) || is_page_going(flat, page)
}

// Whether a hart other than this holds the page.
fn is_held_by_other(h: u8, page: &FlatPage) -> bool
    ensures { result ≡ accesses.is_held_by_other h page.now }
{
    page.holder.is_some() && !is_holder(page, h)
}

// Whether the page of a number is in reach of a hart, and another holds it.
fn is_kept_from(flat: &Flat, h: u8, hart: &FlatHart, page: u32) -> bool
    requires { IsOrdered flat.now }
    ensures { result ≡ steps.is_kept_from flat.now h hart.now (data_in flat.now.pages page) }
{
    match flat.data_page(page as u64) {
        Some(found) => in_reach(flat, hart, found) && is_held_by_other(h, found),
        None => false,
    }
}

// Whether a hart may wait for the holder of this page.
fn may_wait_for_page(flat: &Flat, h: u8, hart: &FlatHart, page: u32) -> bool
    requires { IsOrdered flat.now }
    ensures { IsTrue result
        ↔ steps.MayWaitForPage flat.now h hart.now (steps.access_in hart.now) page }
{
    let Some(access) = access_in(hart) else {
        return false;
    };
    if page as u64 != access.va / PAGE_SIZE || hart.looked.is_some() {
        return false;
    }
    is_kept_from(flat, h, hart, page)
}

// Whether two actors are the same.
fn is_same(one: Actor, other: Actor) -> bool
    ensures { result ≡ steps.is_same one other }
{
    match (one, other) {
        (Actor::Hart(h), Actor::Hart(g)) => h == g,
        (Actor::Kernel, Actor::Kernel) => true,
        (Actor::Hart(_), Actor::Kernel) => false,
        (Actor::Kernel, Actor::Hart(_)) => false,
    }
}

/// Whether an actor is the one inside the kernel.
pub fn is_inside(flat: &Flat, actor: Actor) -> bool
    ensures { result ≡ steps.is_inside flat.now.inside actor }
{
    match flat.inside {
        Some(inside) => is_same(inside, actor),
        None => false,
    }
}

// Whether an actor finds another inside the kernel, which is this.
pub fn is_in_way(flat: &Flat, actor: Actor, other: Actor) -> bool
    ensures { IsTrue result ↔ steps.IsInWay flat.now actor other }
{
    flat.inside == Some(other) && !is_same(other, actor)
}

// Whether a hart may wait for the actor that is inside.
fn may_wait_for_kernel(flat: &Flat, h: u8, hart: &FlatHart, other: Actor) -> bool
    requires { IsOrdered flat.now }
    ensures { IsTrue result ↔ steps.MayWaitForKernel flat.now h hart.now other }
{
    is_in_way(flat, Actor::Hart(h), other) && ask_of(flat, h, hart).is_some()
}

// Whether a hart may wait for this.
pub fn may_wait(flat: &Flat, h: u8, hart: &FlatHart, on: WaitFor) -> bool
    requires { IsOrdered flat.now }
    ensures { IsTrue result ↔ steps.MayWait flat.now h hart.now on }
{
    match on {
        WaitFor::Page { page } => may_wait_for_page(flat, h, hart, page),
        WaitFor::Kernel { actor } => may_wait_for_kernel(flat, h, hart, actor),
    }
}
