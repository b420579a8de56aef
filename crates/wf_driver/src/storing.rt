//! Stores and atomic operations, entry by entry, where no other hart is in a try.
ghost use Rattle.std.specs.Prelude.{◌≡◌, ◌<◌, ◌+◌, ◌%◌, ◌^◌, ◌*◌, None, Some, IfOk, length, vec_len, vec_capacity, false, true};
ghost use Rattle.std.specs.Option.{option_map};
ghost use Rattle.rv_inst.specs.Spelling.{IsSpelled};
ghost use Rattle.wf_flat.specs.declared.state.Life.TheVariants.{Running};
ghost use Rattle.wf_flat.specs.State.{PageState};
ghost use Rattle.wf_outside.specs.Pages.{page_of};
ghost use Rattle.wf_outside.specs.declared.sizes.TheConstants.{PAGE_SIZE};
ghost use Rattle.wf_flat.specs.Serving.{held_by, IsPlace, IsWidth};
ghost use Rattle.wf_flat.specs.Accesses.{access_of, has_reserved as reserved, stands as standing};
ghost use Rattle.wf_flat.specs.Changes.{bytes_put, put_with};
ghost use Rattle.wf_flat.specs.Memory.{data_in};
ghost use Rattle.wf_flat.specs.Ordered.{IsOrdered};
ghost use Rattle.wf_flat.specs.Steps.{OfHart, MayMiss, access_in, is_conditional, is_lost as lost, want_in};
ghost use Rattle.wf_driver.specs.Stepping.{IsActing, InAccess, IsStore, IsFoundPage, IsNear, IsPageToSync, WillReach, WillWrite, EndsUnit, put_by, store_at, store_want, wanted_by};

use crate::actions::{AccessTry, Operand, Write, finished};
use crate::finding::{Found, data_value, found_at, page_to_sync, text_value};
use crate::meeting::{meet, take};
use crate::stepping::{end, trap};
use rv_alu::{AmoOp, amo};
use rv_inst::Arch;
use rv_inst::causes::STORE_PAGE_FAULT;
use wf_flat::{Actor, Entry, Event, Flat, Reservation};
use wf_outside::Memory;
use wf_service::append;

// The low bytes of a value, 1, 2, 4 or 8 of them.
fn low_bytes(value: u64, width: u8) -> u64
    requires { IsWidth width }
    ensures { result ≡ value % 2 ^ (8 * width) }
{
    match width {
        1 => value % (1 << 8),
        2 => value % (1 << 16),
        4 => value % (1 << 32),
        _ => value,
    }
}

// Bytes are put by a hart, in a store-conditional or a store.
fn put_bytes(flat: &mut Flat, hart: u8, operand: Operand, conditional: bool, value: u64)
    requires kind { OfHart flat.old hart (λ state. is_conditional (want_in state) ≡ conditional) }
    requires place { IsPlace operand.va operand.width }
    requires ordered { IsOrdered flat.old }
    ensures state { flat.new ≡ bytes_put flat.old hart operand.va operand.width value }
    ensures page { data_in flat.new.pages (page_of operand.va)
        ≡ option_map (put_with (operand.va % PAGE_SIZE) operand.width value)
        (data_in flat.old.pages (page_of operand.va)) }
    ensures ordered { IsOrdered flat.new }
{
    if conditional {
        flat.put_if(hart, operand.va, operand.width, value);
    } else {
        flat.put(hart, operand.va, operand.width, value);
    }
}

// The low bytes of a value are put by a store-conditional, or by a store, into the page that the
// hart holds, and the try ends.
fn put(
    flat: &mut Flat,
    journal: &mut Vec<Entry>,
    access: &AccessTry,
    conditional: bool,
    value: u64,
    page: u32,
)
    requires room { vec_len journal.old + 1 < vec_capacity journal.old }
    requires acts { IsActing flat.old access.now.hart (Some page) }
    requires store { IsStore access.now.arch access.now.operand (put_by conditional value) }
    requires ready { InAccess flat.old access.now }
    requires held { Some page
        ≡ held_by flat.old access.now.hart (Some (store_at access.now.operand)) }
    ensures { EndsUnit access.now.hart flat.old journal.old.items flat.new journal.new.items }
{
    let operand = access.operand;
    let low = low_bytes(value, operand.width);
    put_bytes(flat, access.hart, operand, conditional, low);
    append(
        journal,
        Actor::Hart(access.hart),
        Event::Put {
            va: operand.va,
            width: operand.width,
            value: low,
        },
    );
    let next = finished(&access.arch, operand.inst, 0);
    end(flat, journal, access.hart, Some(page), next);
}

// Bytes of the page that the hart holds are read, and what an operation makes of them and a value
// is written, and the try ends.
fn swap(
    flat: &mut Flat,
    journal: &mut Vec<Entry>,
    access: &AccessTry,
    op: AmoOp,
    value: u64,
    page: u32,
)
    requires room { vec_len journal.old + 1 < vec_capacity journal.old }
    requires acts { IsActing flat.old access.now.hart (Some page) }
    requires store { IsStore access.now.arch access.now.operand (Write.Swap op value) }
    requires ready { InAccess flat.old access.now }
    requires held { Some page
        ≡ held_by flat.old access.now.hart (Some (store_at access.now.operand)) }
    ensures { EndsUnit access.now.hart flat.old journal.old.items flat.new journal.new.items }
{
    let operand = access.operand;
    let old = data_value(flat, operand.va, operand.width);
    let new = amo(op, operand.width == 8, old, value);
    flat.swap(access.hart, operand.va, operand.width, old, new);
    append(
        journal,
        Actor::Hart(access.hart),
        Event::Swap {
            va: operand.va,
            width: operand.width,
            old,
            new,
        },
    );
    let next = finished(&access.arch, operand.inst, old);
    end(flat, journal, access.hart, Some(page), next);
}

// A store-conditional misses, and the try ends.
fn miss(flat: &mut Flat, journal: &mut Vec<Entry>, access: &AccessTry)
    requires room { vec_len journal.old + 1 < vec_capacity journal.old }
    requires acts { IsActing flat.old access.now.hart None }
    requires spelled { IsSpelled access.now.operand.inst }
    requires ready { InAccess flat.old access.now }
    requires access { access_of (Some (wanted_by access.now))
        ≡ Some (store_at access.now.operand) }
    requires conditional { is_conditional (Some (wanted_by access.now)) ≡ true }
    requires may { OfHart flat.old access.now.hart
        (λ state. (state.life ≡ Running)
        × MayMiss flat.old access.now.hart state (access_in state) access.now.operand.va) }
    ensures { EndsUnit access.now.hart flat.old journal.old.items flat.new journal.new.items }
{
    let va = access.operand.va;
    flat.miss(access.hart, va);
    append(journal, Actor::Hart(access.hart), Event::Miss { va });
    let next = finished(&access.arch, access.operand.inst, 1);
    end(flat, journal, access.hart, None, next);
}

// A page of data that the hart's generation has met is taken and written, and the try ends.
fn write_page(
    flat: &mut Flat,
    journal: &mut Vec<Entry>,
    access: &AccessTry,
    write: Write,
    found: Found,
)
    requires room { vec_len journal.old + 2 < vec_capacity journal.old }
    requires acts { IsActing flat.old access.now.hart None }
    requires store { IsStore access.now.arch access.now.operand write }
    requires ready { InAccess flat.old access.now }
    requires found { IsFoundPage flat.old (page_of access.now.operand.va) found }
    requires right { found.write ≡ true }
    requires near { IsNear flat.old access.now.hart access.now.operand.va found.page }
    requires takes { WillWrite flat.old access.now.hart access.now.operand write true }
    ensures { EndsUnit access.now.hart flat.old journal.old.items flat.new journal.new.items }
{
    take(flat, journal, access.hart, found.page);
    match write {
        Write::Put { value } => put(flat, journal, access, false, value, found.page),
        Write::PutIf { value } => put(flat, journal, access, true, value, found.page),
        Write::Swap { op, value } => swap(flat, journal, access, op, value, found.page),
    }
}

// Whether a write is a store-conditional's, and the hart has no reservation for its address and
// width.
fn is_lost(flat: &Flat, hart: u8, operand: Operand, write: Write) -> bool
    requires { hart < length flat.now.harts }
    ensures { OfHart flat.now hart
        (λ state. result ≡ lost (Some (store_want operand write)) state.reservation) }
{
    let state = &flat.harts[hart as usize];
    match write {
        Write::PutIf { .. } => !has_reserved(state.reservation, operand),
        Write::Put { .. } | Write::Swap { .. } => false,
    }
}

// Whether a reservation has the address and width of an operand.
fn has_reserved(reservation: Option<Reservation>, operand: Operand) -> bool
    ensures { result ≡ reserved reservation operand.va operand.width }
{
    match reservation {
        Some(place) => place.va == operand.va && place.width == operand.width,
        None => false,
    }
}

// Whether a write to a page that was found is to be made: that of a store-conditional where its
// reservation stands, and any other.
fn will_write(flat: &Flat, hart: u8, operand: Operand, write: Write, found: Found) -> bool
    requires there { hart < length flat.now.harts }
    requires found { IsFoundPage flat.now (page_of operand.va) found }
    ensures { WillWrite flat.now hart operand write result }
{
    let state = &flat.harts[hart as usize];
    match write {
        Write::PutIf { .. } => stands(state.reservation, operand, found),
        Write::Put { .. } | Write::Swap { .. } => true,
    }
}

// Whether a reservation stands for an operand on a page that was found.
fn stands(reservation: Option<Reservation>, operand: Operand, found: Found) -> bool
    ensures { (page : PageState) → found.birth ≡ page.birth → found.writes ≡ page.writes
        → result ≡ standing reservation (store_at operand) page }
{
    match reservation {
        Some(place) => {
            has_reserved(reservation, operand)
                && place.birth == found.birth
                && place.writes == found.writes
        }
        None => false,
    }
}

/// A store, a store-conditional or an atomic memory operation of a hart in a try: its page is met
/// where it has to be, taken and written, and the try ends; or it misses, or traps. `met` is what
/// `page_to_sync` gives, where the write is not lost.
pub fn store(
    flat: &mut Flat,
    journal: &mut Vec<Entry>,
    access: &AccessTry,
    write: Write,
    met: Option<Vec<(u32, u32)>>,
)
    requires room { vec_len journal.old + 4 < vec_capacity journal.old }
    requires acts { IsActing flat.old access.now.hart None }
    requires store { IsStore access.now.arch access.now.operand write }
    requires ready { InAccess flat.old access.now }
    requires met { WillReach flat.old access.now.hart access.now.operand write
        → IsPageToSync flat.old access.now.hart access.now.operand.va
        (option_map (λ v. v.items) met) }
    ensures { EndsUnit access.now.hart flat.old journal.old.items flat.new journal.new.items }
{
    let hart = access.hart;
    let operand = access.operand;
    if is_lost(flat, hart, operand, write) {
        miss(flat, journal, access);
        return;
    }
    if text_value(flat, hart, operand.va, operand.width).is_some() {
        trap(flat, journal, hart, STORE_PAGE_FAULT, operand.va);
        return;
    }
    let Some(found) = found_at(flat, hart, operand.va) else {
        trap(flat, journal, hart, STORE_PAGE_FAULT, operand.va);
        return;
    };
    if !found.write {
        trap(flat, journal, hart, STORE_PAGE_FAULT, operand.va);
        return;
    }
    meet(flat, journal, hart, found.page, met);
    if will_write(flat, hart, operand, write, found) {
        write_page(flat, journal, access, write, found);
    } else {
        miss(flat, journal, access);
    }
}

/// What the generations will have met where a write makes a hart's own meet a page; `None` where it
/// makes none, or is lost. It takes memory.
pub fn page_to_sync_by(
    flat: &Flat,
    hart: u8,
    operand: Operand,
    write: Write,
) -> Result<Option<Vec<(u32, u32)>>, Memory>
    requires there { hart < length flat.now.harts }
    requires ordered { IsOrdered flat.now }
    ensures met { IfOk result
        (λ met. WillReach flat.now hart operand write
        → IsPageToSync flat.now hart operand.va (option_map (λ v. v.items) met)) }
    ensures lost { OfHart flat.now hart
        (λ state. lost (Some (store_want operand write)) state.reservation ≡ true)
        → IfOk result (λ met. met ≡ None) }
{
    if is_lost(flat, hart, operand, write) {
        return Ok(None);
    }
    page_to_sync(flat, hart, operand.va)
}
