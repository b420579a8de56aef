//! What an access of a hart finds: text, and pages of data.
ghost use Rattle.std.specs.Prelude.{◌≡◌, ◌&&◌, ◌==◌, is_some, option_copied};
ghost use Rattle.wf_flat.specs.Accesses as accesses;
ghost use Rattle.wf_flat.specs.Accesses.{accessed_data, accessed_text};
ghost use Rattle.wf_flat.specs.Memory as memory;
ghost use Rattle.wf_flat.specs.Ordered.{IsOrdered};

use crate::wanting::WantedAccess;
use wf_flat::{Flat, FlatHart, FlatPage, Reservation, Stage};
use wf_outside::PAGE_SIZE;

/// Whether the page of an access is text of the hart's generation. It takes time in the logarithm
/// of the pages.
pub fn is_text(flat: &Flat, hart: &FlatHart, access: WantedAccess) -> bool
    ensures { result ≡ is_some (accessed_text flat.now hart.now access) }
{
    flat.text_word(hart.generation, access.va).is_some()
}

/// The page of data of an access; `None` where there is none. It takes time in the logarithm of
/// the pages.
pub fn data_of(flat: &Flat, access: WantedAccess) -> Option<&FlatPage>
    requires { IsOrdered flat.now }
    ensures { option_copied result ≡ accessed_data flat.now access }
{
    flat.data_page(access.va / PAGE_SIZE)
}

/// Whether no unmap of the page has begun.
pub fn is_here(page: &FlatPage) -> bool
    ensures { result ≡ accesses.is_here page.now.stage }
{
    match page.stage {
        Stage::Here => true,
        Stage::Going => false,
        Stage::Ending => false,
    }
}

// Whether an unmap of the page is in hand.
pub(crate) fn is_going(page: &FlatPage) -> bool
    ensures { result ≡ accesses.is_going page.now.stage }
{
    match page.stage {
        Stage::Here => false,
        Stage::Going => true,
        Stage::Ending => false,
    }
}

// Whether the page is left to its holder alone.
fn is_ending(page: &FlatPage) -> bool
    ensures { result ≡ accesses.is_ending page.now.stage }
{
    match page.stage {
        Stage::Here => false,
        Stage::Going => false,
        Stage::Ending => true,
    }
}

/// Whether the page may be written, or the access does not write.
pub fn has_right(access: WantedAccess, page: &FlatPage) -> bool
    ensures { result ≡ accesses.has_right access page.now }
{
    !access.write || page.write
}

/// Whether the hart's generation has met the page. It takes time in the logarithm of what was met.
pub fn has_met_page(flat: &Flat, hart: &FlatHart, page: &FlatPage) -> bool
    requires { IsOrdered flat.now }
    ensures { result ≡ memory.has_met flat.now.met hart.now.generation page.now.number }
{
    flat.has_met(hart.generation, page.number)
}

// Whether the page is in reach of the hart.
pub(crate) fn in_reach(flat: &Flat, hart: &FlatHart, page: &FlatPage) -> bool
    requires { IsOrdered flat.now }
    ensures { result ≡ accesses.in_reach flat.now hart.now page.now }
{
    !is_ending(page) && has_met_page(flat, hart, page)
}

// Whether the page is in reach of the hart, with the right.
pub(crate) fn is_reached(
    flat: &Flat,
    hart: &FlatHart,
    access: WantedAccess,
    page: &FlatPage,
) -> bool
    requires { IsOrdered flat.now }
    ensures { result ≡ accesses.is_reached flat.now hart.now access page.now }
{
    in_reach(flat, hart, page) && has_right(access, page)
}

// Whether the holder of the page, if it has one, is this hart.
pub(crate) fn is_holder(page: &FlatPage, h: u8) -> bool
    ensures { result ≡ accesses.holder_is page.now.holder h }
{
    match page.holder {
        Some(holder) => holder == h,
        None => false,
    }
}

// Whether nobody holds the page.
pub(crate) fn is_free(page: &FlatPage) -> bool
    ensures { result ≡ accesses.is_free page.now }
{
    page.holder.is_none()
}

// Whether a hart holds the page of an access.
pub(crate) fn holds(flat: &Flat, h: u8, access: WantedAccess) -> bool
    requires { IsOrdered flat.now }
    ensures { result ≡ accesses.holds flat.now h access }
{
    match data_of(flat, access) {
        Some(page) => is_holder(page, h),
        None => false,
    }
}

// Whether the page of a number has moved since the hart's fetch.
pub(crate) fn has_moved(hart: &FlatHart, number: u64) -> bool
    ensures { result ≡ accesses.has_moved hart.now number }
{
    hart.moved.iter().any(|page| u64::from(*page) == number)
}

// Whether the page of an access is one of data, is Here, and is in reach with the right.
fn is_open(flat: &Flat, hart: &FlatHart, access: WantedAccess) -> bool
    requires { IsOrdered flat.now }
    ensures { result
        ≡ accesses.is_open flat.now hart.now access (accessed_data flat.now access) }
{
    match data_of(flat, access) {
        Some(page) => is_here(page) && is_reached(flat, hart, access, page),
        None => false,
    }
}

// Whether an access of the hart is barred.
pub(crate) fn is_barred(flat: &Flat, hart: &FlatHart, access: WantedAccess) -> bool
    requires { IsOrdered flat.now }
    ensures { result ≡ accesses.is_barred flat.now hart.now access }
{
    if is_text(flat, hart, access) {
        return access.write;
    }
    has_moved(hart, access.va / PAGE_SIZE) || !is_open(flat, hart, access)
}

// Whether a reservation has this address and width.
pub(crate) fn has_reserved(reservation: Option<Reservation>, va: u64, width: u8) -> bool
    ensures { result ≡ accesses.has_reserved reservation va width }
{
    match reservation {
        Some(place) => place.va == va && place.width == width,
        None => false,
    }
}

// Whether a reservation stands for an access on its page.
pub(crate) fn stands(
    reservation: Option<Reservation>,
    access: WantedAccess,
    page: &FlatPage,
) -> bool
    ensures { result ≡ accesses.stands reservation access page.now }
{
    match reservation {
        Some(place) => {
            has_reserved(reservation, access.va, access.width)
                && place.birth == page.birth
                && place.writes == page.writes
        }
        None => false,
    }
}
