//! Loads, entry by entry, where no other hart is in a try.
ghost use Rattle.std.specs.Prelude.{◌≡◌, ◌<◌, ◌+◌, [], None, Some, vec_len, vec_capacity};
ghost use Rattle.std.specs.Option.{option_map};
ghost use Rattle.wf_flat.specs.declared.event.Actor.TheVariants.{Hart};
ghost use Rattle.wf_flat.specs.declared.event.Event.TheVariants as events;
ghost use Rattle.wf_flat.specs.declared.state.Life.TheVariants.{Running};
ghost use Rattle.wf_outside.specs.Pages.{page_of};
ghost use Rattle.wf_flat.specs.Serving.{held_by};
ghost use Rattle.wf_flat.specs.Ordered.{IsOrdered};
ghost use Rattle.wf_flat.specs.Steps.{OfHart, MayLook, want_in};
ghost use Rattle.wf_legal.specs.Events.{flat_after};
ghost use Rattle.wf_flat.specs.Changes.{reserves};
ghost use Rattle.wf_driver.specs.Stepping.{IsActing, InAccess, IsLoad, IsFoundPage, IsNear, IsPageToSync, EndsUnit, load_at};

use crate::actions::{AccessTry, Operand, finished};
use crate::finding::{Found, data_value, found_at, text_value};
use crate::meeting::{meet, take};
use crate::stepping::{end, trap};
use rv_inst::Arch;
use rv_inst::causes::LOAD_PAGE_FAULT;
use wf_flat::{Actor, Entry, Event, Flat};
use wf_service::append;

// A hart looks at bytes, and reserves them where it is in a load-reserved.
fn look(flat: &mut Flat, hart: u8, operand: Operand, reserving: bool, value: u64)
    requires ordered { IsOrdered flat.old }
    requires kind { OfHart flat.old hart (λ state. reserves (want_in state) ≡ reserving) }
    ensures { flat.new
        ≡ flat_after [] flat.old (Hart hart) (events.Look operand.va operand.width value) }
{
    if reserving {
        flat.reserve(hart, operand.va, operand.width, value);
    } else {
        flat.look(hart, operand.va, operand.width, value);
    }
}

// Bytes are looked at, and the try ends.
fn read(
    flat: &mut Flat,
    journal: &mut Vec<Entry>,
    access: &AccessTry,
    reserving: bool,
    value: u64,
    held: Option<u32>,
)
    requires room { vec_len journal.old + 1 < vec_capacity journal.old }
    requires acts { IsActing flat.old access.now.hart held }
    requires load { IsLoad access.now.arch access.now.operand reserving }
    requires ready { InAccess flat.old access.now }
    requires may { OfHart flat.old access.now.hart
        (λ state. (state.life ≡ Running)
        × MayLook flat.old access.now.hart state access.now.operand.va access.now.operand.width
        value) }
    requires held { held ≡ held_by flat.old access.now.hart (Some (load_at access.now.operand)) }
    ensures { EndsUnit access.now.hart flat.old journal.old.items flat.new journal.new.items }
{
    let operand = access.operand;
    look(flat, access.hart, operand, reserving, value);
    append(
        journal,
        Actor::Hart(access.hart),
        Event::Look {
            va: operand.va,
            width: operand.width,
            value,
        },
    );
    let next = finished(&access.arch, operand.inst, value);
    end(flat, journal, access.hart, held, next);
}

// Bytes of a page of data that the hart's generation has met are looked at, and the try ends. At
// the last count of writes the page is taken for that.
fn read_page(
    flat: &mut Flat,
    journal: &mut Vec<Entry>,
    access: &AccessTry,
    reserving: bool,
    found: Found,
)
    requires room { vec_len journal.old + 2 < vec_capacity journal.old }
    requires acts { IsActing flat.old access.now.hart None }
    requires load { IsLoad access.now.arch access.now.operand reserving }
    requires ready { InAccess flat.old access.now }
    requires found { IsFoundPage flat.old (page_of access.now.operand.va) found }
    requires near { IsNear flat.old access.now.hart access.now.operand.va found.page }
    ensures { EndsUnit access.now.hart flat.old journal.old.items flat.new journal.new.items }
{
    let value = data_value(flat, access.operand.va, access.operand.width);
    if found.last {
        take(flat, journal, access.hart, found.page);
        read(flat, journal, access, reserving, value, Some(found.page));
    } else {
        read(flat, journal, access, reserving, value, None);
    }
}

/// A load, or a load-reserved, of a hart in a try: its page is met where it has to be, its bytes
/// are looked at, and the try ends; or it traps. `met` is what `page_to_sync` gives.
pub fn load(
    flat: &mut Flat,
    journal: &mut Vec<Entry>,
    access: &AccessTry,
    reserving: bool,
    met: Option<Vec<(u32, u32)>>,
)
    requires room { vec_len journal.old + 4 < vec_capacity journal.old }
    requires acts { IsActing flat.old access.now.hart None }
    requires load { IsLoad access.now.arch access.now.operand reserving }
    requires ready { InAccess flat.old access.now }
    requires met { IsPageToSync flat.old access.now.hart access.now.operand.va
        (option_map (λ v. v.items) met) }
    ensures { EndsUnit access.now.hart flat.old journal.old.items flat.new journal.new.items }
{
    let hart = access.hart;
    let operand = access.operand;
    if let Some(value) = text_value(flat, hart, operand.va, operand.width) {
        read(flat, journal, access, reserving, value, None);
        return;
    }
    let Some(found) = found_at(flat, hart, operand.va) else {
        trap(flat, journal, hart, LOAD_PAGE_FAULT, operand.va);
        return;
    };
    meet(flat, journal, hart, found.page, met);
    read_page(flat, journal, access, reserving, found);
}
