//! A hart as it was, for a call that is taken back.
ghost use Rattle.std.specs.Prelude.{◌≡◌, ◌<◌, IfOk, None, Some, length, slice_get};
ghost use Rattle.wf_flat.specs.Lists.{changed_at};

use wf_flat::{Flat, FlatHart};
use wf_outside::Memory;

// The same hart.
fn copy_of(hart: &FlatHart) -> Result<FlatHart, Memory>
    ensures { IfOk result (λ copy. copy ≡ hart.now) }
{
    Ok(FlatHart {
        generation: hart.generation,
        arch: hart.arch,
        fetched: hart.fetched,
        looked: hart.looked,
        put: hart.put,
        moved: hart.moved.clone()?,
        reservation: hart.reservation,
        life: hart.life,
    })
}

/// A hart as it is.
///
/// # Errors
///
/// `Memory` where memory runs out.
pub fn hart_before(flat: &Flat, hart: u8) -> Result<FlatHart, Memory>
    requires { hart < length flat.now.harts }
    ensures { IfOk result (λ copy. slice_get flat.now.harts hart ≡ Some copy) }
{
    copy_of(&flat.harts[hart as usize])
}

/// The pc of a hart.
pub fn pc_of(hart: &FlatHart) -> u64
    ensures { result ≡ hart.now.arch.pc }
{
    let arch = hart.arch;
    arch.pc
}

// A hart is as it was before.
#[tactic(auto, using(wf_flat::proofs::HartLemmas::hart_changes))]
fn put_back(flat: &mut Flat, hart: u8, before: FlatHart)
    requires { hart < length flat.old.harts }
    ensures { flat.new
        ≡ record flat.old { harts = changed_at flat.old.harts hart (λ state. before) } }
{
    flat.harts[hart as usize] = before;
}

/// A hart is as it was before, and nobody is inside.
pub fn restore(flat: &mut Flat, hart: u8, before: FlatHart)
    requires { hart < length flat.old.harts }
    ensures { flat.new
        ≡ record flat.old {
          harts = changed_at flat.old.harts hart (λ state. before);
          inside = None;
        } }
{
    put_back(flat, hart, before);
    flat.inside = None;
}
