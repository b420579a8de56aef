//! Where a hart may take a page, and write.
ghost use Rattle.std.specs.Prelude.{◌≡◌, ◌↔◌, ◌%◌, ◌*◌, ◌^◌, ◌||◌, not, nat_lt, ℕ, true, IsTrue, IsSomeAnd, Some};
ghost use Rattle.wf_flat.specs.Accesses.{accessed_data};
ghost use Rattle.wf_flat.specs.Memory.{number_in};
ghost use Rattle.wf_flat.specs.Ordered.{IsOrdered};
ghost use Rattle.wf_flat.specs.Serving.{IsWidth};
ghost use Rattle.wf_flat.specs.Steps as steps;
ghost use Rattle.wf_may.specs.Acting.{MayWrite};
ghost use Rattle.wf_outside.specs.declared.sizes.TheConstants.{PAGE_SIZE};

use crate::asking::is_lost;
use crate::finding::{data_of, holds, is_free, is_reached, is_text, stands};
use crate::looking::is_access;
use crate::wanting::{WantedAccess, access_of, want_in};
use rv_alu::amo;
use rv_inst::Want;
use wf_flat::{Flat, FlatHart, FlatPage};
use wf_outside::PAGE_SIZE;

// Whether an access writes, or its page has the last count of writes.
fn needs_page(flat: &Flat, access: WantedAccess, page: &FlatPage) -> bool
    ensures { result
        ≡ (access.write || not (nat_lt page.now.writes flat.now.limits.last_writes)) }
{
    access.write || page.writes >= flat.limits.last_writes
}

// Whether an access of a hart with this want has to take the page.
fn takes_for(
    flat: &Flat,
    hart: &FlatHart,
    want: Want,
    access: WantedAccess,
    page: &FlatPage,
) -> bool
    ensures { result ≡ steps.takes_for (Some want) flat.now hart.now access page.now }
{
    match want {
        Want::PutIf { .. } => stands(hart.reservation, access, page),
        Want::Nothing | Want::Call => needs_page(flat, access, page),
        Want::Look { .. } | Want::Reserve { .. } => needs_page(flat, access, page),
        Want::Put { .. } | Want::Swap { .. } => needs_page(flat, access, page),
        Want::Trap { .. } => needs_page(flat, access, page),
    }
}

// Whether an access of a hart with this want takes its page of data.
fn takes_data(flat: &Flat, hart: &FlatHart, want: Want, access: WantedAccess) -> bool
    requires ordered { IsOrdered flat.now }
    requires want { Some want ≡ steps.want_in hart.now }
    ensures { IsTrue result
        ↔ steps.TakesData flat.now hart.now access (accessed_data flat.now access) }
{
    match data_of(flat, access) {
        Some(page) => {
            is_free(page)
                && is_reached(flat, hart, access, page)
                && takes_for(flat, hart, want, access, page)
        }
        None => false,
    }
}

// Whether a hart may take the page.
pub fn may_take(flat: &Flat, hart: &FlatHart, page: u32) -> bool
    requires { IsOrdered flat.now }
    ensures { IsTrue result ↔ steps.MayTake flat.now hart.now (steps.access_in hart.now) page }
{
    let Some(want) = want_in(hart) else {
        return false;
    };
    let Some(access) = access_of(want) else {
        return false;
    };
    if u64::from(page) != access.va / PAGE_SIZE
        || hart.looked.is_some()
        || is_text(flat, hart, access)
    {
        return false;
    }
    takes_data(flat, hart, want, access)
}

// The low bytes of a value, 1, 2, 4 or 8 of them.
fn low_bytes(value: u64, width: u8) -> u64
    requires { IsWidth width }
    ensures { result ≡ value % 2 ^ (8 * width) }
{
    match width {
        1 => value % (1 << 8),
        2 => value % (1 << 16),
        4 => value % (1 << 32),
        _ => value,
    }
}

// What a store, or a store-conditional, puts.
fn put_of(want: Want) -> Option<u64>
    ensures { result ≡ steps.put_of (Some want) }
{
    match want {
        Want::Put { value, .. } => Some(value),
        Want::PutIf { value, .. } => Some(value),
        Want::Nothing | Want::Call => None,
        Want::Look { .. } | Want::Reserve { .. } => None,
        Want::Swap { .. } | Want::Trap { .. } => None,
    }
}

// Whether the low bytes of what a want puts are these; they are those of an access.
fn puts(want: Want, access: WantedAccess, value: u64) -> bool
    ensures { IsTrue result
        ↔ IsSomeAnd (steps.put_of (Some want)) (λ whole. value ≡ whole % 2 ^ (8 * access.width)) }
{
    match put_of(want) {
        Some(whole) => value == low_bytes(whole, access.width),
        None => false,
    }
}

// Whether a hart may write by this access: it holds the page, and has no answer yet.
fn may_write(flat: &Flat, h: u8, hart: &FlatHart, access: WantedAccess) -> bool
    requires { IsOrdered flat.now }
    ensures { IsTrue result ↔ MayWrite flat.now h hart.now access }
{
    holds(flat, h, access) && hart.looked.is_none() && !hart.put
}

// Whether a hart may put these bytes at this address.
pub fn may_put(flat: &Flat, h: u8, hart: &FlatHart, va: u64, width: u8, value: u64) -> bool
    requires { IsOrdered flat.now }
    ensures { IsTrue result ↔ steps.MayPut flat.now h hart.now va width value }
{
    let Some(want) = want_in(hart) else {
        return false;
    };
    let Some(access) = access_of(want) else {
        return false;
    };
    if !is_access(access, va, width, true) || !may_write(flat, h, hart, access) {
        return false;
    }
    puts(want, access, value)
}

// What an atomic memory operation makes of what it reads.
fn swap_of(want: Want, got: u64) -> Option<u64>
    ensures { result ≡ steps.swap_of (Some want) got }
{
    match want {
        Want::Swap {
            width,
            op,
            value,
            ..
        } => Some(amo(op, width == 8, got, value)),
        Want::Nothing | Want::Call => None,
        Want::Look { .. } | Want::Reserve { .. } => None,
        Want::Put { .. } | Want::PutIf { .. } => None,
        Want::Trap { .. } => None,
    }
}

// Whether the bytes of an access are these, in its page of data.
fn is_there(flat: &Flat, access: WantedAccess, old: u64) -> bool
    requires { IsOrdered flat.now }
    ensures { IsTrue result
        ↔ IsSomeAnd (accessed_data flat.now access)
        (λ page. old ≡ number_in page.words (access.va % PAGE_SIZE) access.width) }
{
    match data_of(flat, access) {
        Some(page) => old == page.number_at(access.va % PAGE_SIZE, access.width),
        None => false,
    }
}

// Whether a hart may read the old bytes of its access, which writes, and write the new ones.
pub fn may_swap(flat: &Flat, h: u8, hart: &FlatHart, old: u64, new: u64) -> bool
    requires { IsOrdered flat.now }
    ensures { (va width : ℕ)
        → steps.access_in hart.now ≡ Some (record { va = va; width = width; write = true })
        → IsTrue result ↔ steps.MaySwap flat.now h hart.now va width old new }
{
    let Some(want) = want_in(hart) else {
        return false;
    };
    let Some(access) = access_of(want) else {
        return false;
    };
    if !may_write(flat, h, hart, access) {
        return false;
    }
    is_there(flat, access, old) && swap_of(want, old) == Some(new)
}

/// Whether the want is that of a store-conditional.
pub fn is_conditional(want: Want) -> bool
    ensures { result ≡ steps.is_conditional (Some want) }
{
    match want {
        Want::PutIf { .. } => true,
        Want::Nothing | Want::Call => false,
        Want::Look { .. } | Want::Reserve { .. } => false,
        Want::Put { .. } | Want::Swap { .. } => false,
        Want::Trap { .. } => false,
    }
}

// Whether a store-conditional of this access misses at its page of data.
fn misses_page(flat: &Flat, hart: &FlatHart, access: WantedAccess) -> bool
    requires { IsOrdered flat.now }
    ensures { result
        ≡ steps.misses_page flat.now hart.now access (accessed_data flat.now access) }
{
    match data_of(flat, access) {
        Some(page) => {
            is_reached(flat, hart, access, page) && !stands(hart.reservation, access, page)
        }
        None => false,
    }
}

// Whether a store-conditional of this want and access misses.
fn misses(flat: &Flat, hart: &FlatHart, want: Want, access: WantedAccess) -> bool
    requires ordered { IsOrdered flat.now }
    requires want { Some want ≡ steps.want_in hart.now }
    ensures { result ≡ steps.misses flat.now hart.now access }
{
    is_lost(want, hart.reservation)
        || !is_text(flat, hart, access) && misses_page(flat, hart, access)
}

// Whether a store-conditional of a hart may miss at this address.
pub fn may_miss(flat: &Flat, h: u8, hart: &FlatHart, va: u64) -> bool
    requires { IsOrdered flat.now }
    ensures { IsTrue result ↔ steps.MayMiss flat.now h hart.now (steps.access_in hart.now) va }
{
    let Some(want) = want_in(hart) else {
        return false;
    };
    let Some(access) = access_of(want) else {
        return false;
    };
    if va != access.va || !is_conditional(want) || hart.looked.is_some() {
        return false;
    }
    !holds(flat, h, access) && misses(flat, hart, want, access)
}
