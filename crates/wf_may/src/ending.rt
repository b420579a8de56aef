//! Where a hart's instruction ends, and what it leaves.
ghost use Rattle.std.specs.Prelude.{◌≡◌, ◌≢◌, ◌↔◌, IsTrue, Some, ℕ, true};
ghost use Rattle.rv_inst.specs.Meanings as meanings;
ghost use Rattle.rv_inst.specs.Spelling.{IsSpelled};
ghost use Rattle.wf_flat.specs.Accesses as accesses;
ghost use Rattle.wf_flat.specs.Steps as steps;
ghost use Rattle.wf_may.specs.Wanted.{HasPlace};

use crate::storing::is_conditional;
use crate::wanting::{WantedAccess, access_of, inst_in, want_in};
use rv_hart::{finish, finish_call};
use rv_inst::{Arch, Inst, Want};
use wf_calls::OWN_GENERATION;
use wf_flat::FlatHart;

// The answer of a hart's call.
fn call_answer(hart: &FlatHart) -> u64
    ensures { result ≡ steps.call_answer hart.now }
{
    if hart.arch.x[17] == OWN_GENERATION {
        return hart.generation as u64;
    }
    hart.looked.unwrap_or(0)
}

// The pc and registers after a call with this answer.
fn called(arch: &Arch, answer: u64) -> Arch
    ensures { result ≡ meanings.called arch.now answer }
{
    let mut next = *arch;
    finish_call(&mut next, answer);
    next
}

// The pc and registers after an instruction that read this, and that is no call and wants no trap.
fn finished(arch: &Arch, inst: Inst, got: u64) -> Arch
    requires spelled { IsSpelled inst }
    requires own { meanings.want_of inst arch.now ≢ Want.Call }
    requires no_trap { (cause value : ℕ) → meanings.want_of inst arch.now ≢ Want.Trap cause value }
    ensures { result ≡ meanings.meaning_of inst arch.now got }
{
    let mut next = *arch;
    finish(&mut next, inst, got);
    next
}

/// The pc and registers after the instruction of a hart's try, which wants no trap.
pub fn arch_after(hart: &FlatHart) -> Arch
    requires { (cause value : ℕ) → steps.want_in hart.now ≢ Some (Want.Trap cause value) }
    ensures { result ≡ steps.arch_after hart.now }
{
    let Some(inst) = inst_in(hart) else {
        return hart.arch;
    };
    match inst {
        Inst::Ecall => called(&hart.arch, call_answer(hart)),
        _ => finished(&hart.arch, inst, hart.looked.unwrap_or(0)),
    }
}

// Whether a hart with this want has made the write of its access, or missed, or has none to make.
fn has_written(hart: &FlatHart, want: Want, access: WantedAccess) -> bool
    requires { Some want ≡ steps.want_in hart.now }
    ensures { result ≡ steps.has_written hart.now access }
{
    !access.write || hart.put || is_conditional(want)
}

// Whether the access of a hart's want, if there is one, has its answer and has written.
fn has_ended(hart: &FlatHart, want: Want) -> bool
    requires want { Some want ≡ steps.want_in hart.now }
    requires placed { HasPlace (accesses.access_of (Some want)) }
    ensures { result ≡ steps.has_ended hart.now (accesses.access_of (Some want)) }
{
    match access_of(want) {
        Some(access) => hart.looked.is_some() && has_written(hart, want, access),
        None => false,
    }
}

// Whether a hart's instruction, which has this want, wants nothing or an access that has ended.
fn is_done(hart: &FlatHart, want: Want) -> bool
    requires want { Some want ≡ steps.want_in hart.now }
    requires placed { HasPlace (accesses.access_of (Some want)) }
    ensures done { result ≡ steps.is_done hart.now (Some want) }
    ensures no_trap { (cause value : ℕ) → result ≡ true → want ≢ Want.Trap cause value }
{
    match want {
        Want::Nothing => true,
        Want::Call => has_ended(hart, want),
        Want::Trap { .. } => has_ended(hart, want),
        Want::Look { .. } | Want::Reserve { .. } => has_ended(hart, want),
        Want::Put { .. } | Want::PutIf { .. } => has_ended(hart, want),
        Want::Swap { .. } => has_ended(hart, want),
    }
}

// Whether a hart's instruction may end, with this pc after it.
pub fn may_end(hart: &FlatHart, pc: u64) -> bool
    ensures { IsTrue result ↔ steps.MayEnd hart.now pc }
{
    let Some(want) = want_in(hart) else {
        return false;
    };
    if !is_done(hart, want) {
        return false;
    }
    arch_after(hart).pc == pc
}
