//! What is done about a barred access.
ghost use Rattle.std.specs.Prelude.{◌≡◌, ◌∷◌, []};
ghost use Rattle.wf_flat.specs.Accesses.{accessed_data};
ghost use Rattle.wf_flat.specs.Ordered.{IsOrdered};
ghost use Rattle.wf_legal.specs.Calls as calls;

use rv_inst::causes::{LOAD_PAGE_FAULT, STORE_PAGE_FAULT};
use wf_flat::{Event, Flat, FlatHart};
use wf_may::{WantedAccess, data_of, has_met_page, has_right, is_here, is_text};
use wf_verdict::Todo;

// The trap of an access.
fn access_trap(access: WantedAccess) -> Event
    ensures { Todo.Exactly result ∷ [] ≡ calls.access_trap access }
{
    let cause = if access.write {
        STORE_PAGE_FAULT
    } else {
        LOAD_PAGE_FAULT
    };
    Event::Trap {
        cause,
        value: access.va,
    }
}

// What is done about a barred access that is not to own text.
fn event_of_page(flat: &Flat, hart: &FlatHart, access: WantedAccess) -> Event
    requires { IsOrdered flat.now }
    ensures { Todo.Exactly result ∷ []
        ≡ calls.todo_of_page flat.now hart.now access (accessed_data flat.now access) }
{
    let Some(page) = data_of(flat, access) else {
        return access_trap(access);
    };
    if !(is_here(page) && has_right(access, page)) {
        return access_trap(access);
    }
    if has_met_page(flat, hart, page) {
        return Event::Again { page: page.number };
    }
    Event::Sync {
        generation: hart.generation,
        page: page.number,
    }
}

/// The one thing that is done about a barred access of a hart.
pub fn event_of_access(flat: &Flat, hart: &FlatHart, access: WantedAccess) -> Event
    requires { IsOrdered flat.now }
    ensures { Todo.Exactly result ∷ [] ≡ calls.todo_of_access flat.now hart.now access }
{
    if is_text(flat, hart, access) {
        return access_trap(access);
    }
    event_of_page(flat, hart, access)
}
