//! Where a hart may fetch, and read.
ghost use Rattle.std.specs.Prelude.{◌≡◌, ◌↔◌, IsTrue, Some};
ghost use Rattle.wf_flat.specs.Accesses.{accessed_data, accessed_text, generation_text};
ghost use Rattle.wf_flat.specs.Ordered.{IsOrdered};
ghost use Rattle.wf_flat.specs.Steps as steps;

use crate::finding::{data_of, is_free, is_holder, is_reached};
use crate::wanting::{WantedAccess, access_in};
use wf_flat::{Flat, FlatHart, FlatPage};
use wf_outside::PAGE_SIZE;

// Whether a hart may fetch this word at this pc.
pub fn may_fetch(flat: &Flat, hart: &FlatHart, pc: u64, word: u32) -> bool
    ensures { IsTrue result
        ↔ steps.MayFetch (generation_text flat.now hart.now.generation) hart.now pc word }
{
    if hart.fetched.is_some() || pc != hart.arch.pc {
        return false;
    }
    flat.text_word(hart.generation, pc) == Some(word)
}

// Whether a hart may read the page of data.
fn may_read(flat: &Flat, h: u8, hart: &FlatHart, access: WantedAccess, page: &FlatPage) -> bool
    requires { IsOrdered flat.now }
    ensures { result ≡ steps.may_read flat.now h hart.now access page.now }
{
    is_free(page) && is_reached(flat, hart, access, page) && page.writes < flat.limits.last_writes
        || is_holder(page, h)
}

// Whether an access of a hart reads these bytes of data.
fn reads_data(flat: &Flat, h: u8, hart: &FlatHart, access: WantedAccess, value: u64) -> bool
    requires { IsOrdered flat.now }
    ensures { IsTrue result
        ↔ steps.ReadsData flat.now h hart.now access (accessed_data flat.now access) value }
{
    match data_of(flat, access) {
        Some(page) => {
            may_read(flat, h, hart, access, page)
                && value == page.number_at(access.va % PAGE_SIZE, access.width)
        }
        None => false,
    }
}

// Whether an access of a hart reads these bytes, of its own text or of data.
fn reads(flat: &Flat, h: u8, hart: &FlatHart, access: WantedAccess, value: u64) -> bool
    requires { IsOrdered flat.now }
    ensures { IsTrue result
        ↔ steps.Reads flat.now h hart.now access (accessed_text flat.now hart.now access) value }
{
    match flat.text_number(hart.generation, access.va, access.width) {
        Some(number) => value == number,
        None => reads_data(flat, h, hart, access, value),
    }
}

// Whether an access has this address and width, and writes or does not.
pub fn is_access(access: WantedAccess, va: u64, width: u8, write: bool) -> bool
    ensures { IsTrue result ↔ (access ≡ record { va = va; width = width; write = write }) }
{
    access.va == va && access.width == width && access.write == write
}

// Whether a hart is in a try of an access of this address and width that writes, or does not.
pub fn wants(hart: &FlatHart, va: u64, width: u8, write: bool) -> bool
    ensures { IsTrue result
        ↔ (steps.access_in hart.now ≡ Some (record { va = va; width = width; write = write })) }
{
    match access_in(hart) {
        Some(access) => is_access(access, va, width, write),
        None => false,
    }
}

// Whether a hart may read these bytes at this address.
pub fn may_look(flat: &Flat, h: u8, hart: &FlatHart, va: u64, width: u8, value: u64) -> bool
    requires { IsOrdered flat.now }
    ensures { IsTrue result ↔ steps.MayLook flat.now h hart.now va width value }
{
    let Some(access) = access_in(hart) else {
        return false;
    };
    if !is_access(access, va, width, false) || hart.looked.is_some() {
        return false;
    }
    reads(flat, h, hart, access, value)
}
