//! What the instruction of a try wants.
ghost use Rattle.std.specs.Prelude.{◌≡◌, None, Some, IfSome, false, true};
ghost use Rattle.rv_inst.specs.Spelling.{IsSpelled};
ghost use Rattle.wf_flat.specs.Accesses as accesses;
ghost use Rattle.wf_flat.specs.Steps as steps;
ghost use Rattle.wf_may.specs.Wanted.{HasPlace};

use rv_hart::plan;
use rv_inst::{Inst, Want, decode};
use std::marker::Model;
use wf_flat::FlatHart;

/// An access of an instruction: its address, which is a multiple of its width of 1, 2, 4 or 8
/// bytes, and whether it writes.
#[derive(Clone, Copy, Debug, PartialEq, Eq)]
pub struct WantedAccess {
    pub va: u64,
    pub width: u8,
    pub write: bool,
}

impl Model for WantedAccess {
    ghost use Rattle.wf_flat.specs.Accesses.{Access};
    ghost use Rattle.wf_flat.specs.Serving.{IsPlace};

    ghost Value = { Access };

    ghost view = { λ a. record { va = a.va; width = a.width; write = a.write } };

    ghost invariant = { λ a. IsPlace a.va a.width };

    ghost inverse = { λ a. record { va = a.va; width = a.width; write = a.write } };
}

/// The instruction of a hart's try; `None` where it is in none, or its word is no instruction.
pub(crate) fn inst_in(hart: &FlatHart) -> Option<Inst>
    ensures inst { result ≡ steps.inst_in hart.now }
    ensures spelled { IfSome result IsSpelled }
{
    decode(hart.fetched?)
}

/// What the instruction of a hart's try wants; `None` where it is in none, or its word is no
/// instruction.
pub fn want_in(hart: &FlatHart) -> Option<Want>
    ensures want { result ≡ steps.want_in hart.now }
    ensures placed { HasPlace (accesses.access_of result) }
{
    let inst = inst_in(hart)?;
    Some(plan(&hart.arch, inst))
}

// A load of these bytes.
fn load(va: u64, width: u8) -> Option<WantedAccess>
    requires { HasPlace (Some (record { va = va; width = width; write = false })) }
    ensures { result ≡ Some (record { va = va; width = width; write = false }) }
{
    Some(WantedAccess {
        va,
        width,
        write: false,
    })
}

// A store of these bytes.
fn store(va: u64, width: u8) -> Option<WantedAccess>
    requires { HasPlace (Some (record { va = va; width = width; write = true })) }
    ensures { result ≡ Some (record { va = va; width = width; write = true }) }
{
    Some(WantedAccess {
        va,
        width,
        write: true,
    })
}

// The access that an instruction wants, if it wants one.
pub(crate) fn access_of(want: Want) -> Option<WantedAccess>
    requires { HasPlace (accesses.access_of (Some want)) }
    ensures { result ≡ accesses.access_of (Some want) }
{
    match want {
        Want::Look { va, width } => load(va, width),
        Want::Reserve { va, width } => load(va, width),
        Want::Put { va, width, .. } => store(va, width),
        Want::PutIf { va, width, .. } => store(va, width),
        Want::Swap { va, width, .. } => store(va, width),
        Want::Nothing | Want::Call => None,
        Want::Trap { .. } => None,
    }
}

/// The access of a hart's try, if it is in one of an instruction that wants one.
pub fn access_in(hart: &FlatHart) -> Option<WantedAccess>
    ensures { result ≡ steps.access_in hart.now }
{
    access_of(want_in(hart)?)
}
