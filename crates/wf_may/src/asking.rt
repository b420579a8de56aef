//! What a hart asks the kernel for.
ghost use Rattle.std.specs.Prelude.{◌≡◌, None, Some};
ghost use Rattle.std.specs.Option.{option_map};
ghost use Rattle.rv_inst.specs.Decoding.{inst_of};
ghost use Rattle.wf_flat.specs.Accesses as accesses;
ghost use Rattle.wf_flat.specs.Accesses.{generation_text};
ghost use Rattle.wf_flat.specs.Memory.{word_at};
ghost use Rattle.wf_flat.specs.Ordered.{IsOrdered};
ghost use Rattle.wf_flat.specs.Steps as steps;
ghost use Rattle.wf_may.specs.Asking.{said};
ghost use Rattle.wf_may.specs.Wanted.{HasPlace};

use crate::finding::{has_reserved, holds, is_barred};
use crate::wanting::{WantedAccess, access_of, want_in};
use rv_inst::Want;
use rv_inst::causes::{ILLEGAL_INSTRUCTION, INSTRUCTION_PAGE_FAULT};
use wf_flat::{Flat, FlatHart, Reservation};

/// What a hart asks the kernel for.
#[derive(Clone, Copy, Debug, PartialEq, Eq)]
pub enum Asked {
    /// A call, whose number and arguments are in its registers.
    Called,
    /// To be stopped with a trap, with its cause and value.
    Stopped { cause: u8, value: u64 },
    /// What its access is to do, which is barred.
    Faulted { access: WantedAccess },
}

// Whether a want is that of a store-conditional without a reservation for its address and width.
pub(crate) fn is_lost(want: Want, reservation: Option<Reservation>) -> bool
    ensures { result ≡ steps.is_lost (Some want) reservation }
{
    match want {
        Want::PutIf { va, width, .. } => !has_reserved(reservation, va, width),
        Want::Nothing | Want::Call => false,
        Want::Look { .. } | Want::Reserve { .. } => false,
        Want::Put { .. } | Want::Swap { .. } => false,
        Want::Trap { .. } => false,
    }
}

// Whether an access without an answer, of a hart that does not hold its page, is barred; it is that
// of this want.
fn asks_access(flat: &Flat, h: u8, hart: &FlatHart, want: Want, access: WantedAccess) -> bool
    requires ordered { IsOrdered flat.now }
    requires want { Some want ≡ steps.want_in hart.now }
    ensures { result ≡ steps.asks_access flat.now h hart.now access }
{
    hart.looked.is_none()
        && !holds(flat, h, access)
        && !is_lost(want, hart.reservation)
        && is_barred(flat, hart, access)
}

// What is asked for by a want, if it is one of an access.
fn ask_of_access(flat: &Flat, h: u8, hart: &FlatHart, want: Want) -> Option<Asked>
    requires ordered { IsOrdered flat.now }
    requires want { Some want ≡ steps.want_in hart.now }
    requires placed { HasPlace (accesses.access_of (Some want)) }
    ensures { option_map said result
        ≡ steps.ask_of_access flat.now h hart.now (accesses.access_of (Some want)) }
{
    let access = access_of(want)?;
    if asks_access(flat, h, hart, want, access) {
        Some(Asked::Faulted { access })
    } else {
        None
    }
}

// What is asked for by a want.
fn ask_of_want(flat: &Flat, h: u8, hart: &FlatHart, want: Want) -> Option<Asked>
    requires ordered { IsOrdered flat.now }
    requires want { Some want ≡ steps.want_in hart.now }
    requires placed { HasPlace (accesses.access_of (Some want)) }
    ensures { option_map said result ≡ steps.ask_of_want flat.now h hart.now (Some want) }
{
    match want {
        Want::Call => Some(Asked::Called),
        Want::Trap { cause, value } => Some(Asked::Stopped { cause, value }),
        Want::Nothing => None,
        Want::Look { .. } => ask_of_access(flat, h, hart, want),
        Want::Reserve { .. } => ask_of_access(flat, h, hart, want),
        Want::Put { .. } => ask_of_access(flat, h, hart, want),
        Want::PutIf { .. } => ask_of_access(flat, h, hart, want),
        Want::Swap { .. } => ask_of_access(flat, h, hart, want),
    }
}

// What a hart in a try of this word asks for.
fn ask_of_word(flat: &Flat, h: u8, hart: &FlatHart, word: u32) -> Option<Asked>
    requires ordered { IsOrdered flat.now }
    requires word { hart.now.fetched ≡ Some word }
    ensures { option_map said result
        ≡ steps.ask_of_word flat.now h hart.now word (inst_of word) }
{
    match want_in(hart) {
        Some(want) => ask_of_want(flat, h, hart, want),
        None => Some(Asked::Stopped {
            cause: ILLEGAL_INSTRUCTION,
            value: u64::from(word),
        }),
    }
}

// What a hart that is to fetch asks for.
fn ask_of_fetch(flat: &Flat, hart: &FlatHart) -> Option<Asked>
    ensures { option_map said result
        ≡ steps.ask_of_fetch hart.now.arch.pc
        (word_at (generation_text flat.now hart.now.generation) hart.now.arch.pc) }
{
    let pc = hart.arch.pc;
    match flat.text_word(hart.generation, pc) {
        Some(_) => None,
        None => Some(Asked::Stopped {
            cause: INSTRUCTION_PAGE_FAULT,
            value: pc,
        }),
    }
}

/// What hart `h`, which is this, asks for; `None` where it asks for nothing. It takes time in the
/// logarithm of the pages, and one pass over the pages that have moved for it.
pub fn ask_of(flat: &Flat, h: u8, hart: &FlatHart) -> Option<Asked>
    requires { IsOrdered flat.now }
    ensures { option_map said result ≡ steps.ask_of flat.now h hart.now }
{
    match hart.fetched {
        Some(word) => ask_of_word(flat, h, hart, word),
        None => ask_of_fetch(flat, hart),
    }
}
