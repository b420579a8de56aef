//! What a hart is to do with a word.
ghost use Rattle.std.specs.Prelude.{◌≡◌, ◌≢◌, IfSome, None, Some, ℕ};
ghost use Rattle.rv_inst.specs.declared.causes.TheConstants.{ILLEGAL_INSTRUCTION};
ghost use Rattle.rv_inst.specs.Decoding.{inst_of};
ghost use Rattle.rv_inst.specs.Spelling.{IsSpelled};
ghost use Rattle.rv_inst.specs.Meanings.{want_of, meaning_of};
ghost use Rattle.wf_driver.specs.Stepping.{IsAction};

use rv_alu::AmoOp;
use rv_hart::{finish, plan};
use rv_inst::causes::ILLEGAL_INSTRUCTION;
use rv_inst::{Arch, Inst, Want, decode};

/// What an instruction reads or writes.
#[derive(Clone, Copy, Debug, PartialEq, Eq)]
pub struct Operand {
    /// The instruction.
    pub inst: Inst,
    /// The address, a multiple of the width.
    pub va: u64,
    /// Its bytes: 1, 2, 4 or 8.
    pub width: u8,
}

/// A hart in a try of an instruction that reads or writes.
#[derive(Clone, Copy, Debug, PartialEq, Eq)]
pub struct AccessTry {
    /// The hart.
    pub hart: u8,
    /// Its registers.
    pub arch: Arch,
    /// What the instruction reads or writes.
    pub operand: Operand,
}

/// How an instruction writes.
#[derive(Clone, Copy, Debug, PartialEq, Eq)]
pub enum Write {
    /// A store, of the low bytes of a value.
    Put { value: u64 },
    /// A store-conditional: so too, if its reservation stands.
    PutIf { value: u64 },
    /// An atomic memory operation, of what it makes of the bytes there and a value.
    Swap { op: AmoOp, value: u64 },
}

/// What a hart does with the word that it fetched, which is no call.
#[derive(Clone, Copy, Debug, PartialEq, Eq)]
pub enum Action {
    /// The instruction wants nothing, and leaves these registers.
    Run { next: Arch },
    /// It reads, and reserves what it reads where it is a load-reserved.
    Load { operand: Operand, reserving: bool },
    /// It writes.
    Store { operand: Operand, write: Write },
    /// It stops with a trap.
    Trap { cause: u8, value: u64 },
}

/// What a hart with these registers does with a word; `None` where it makes a call.
#[tactic(auto, using(crate::proofs::ActionLemmas::places))]
pub fn action_of(arch: &Arch, word: u32) -> Option<Action>
    ensures action { IfSome result (λ action. IsAction arch.now word action) }
    ensures none { result ≡ None → inst_of word ≡ Some Inst.Ecall }
{
    let Some(inst) = decode(word) else {
        return Some(illegal(word));
    };
    match plan(arch, inst) {
        Want::Nothing => Some(Action::Run {
            next: arch_after(arch, inst),
        }),
        Want::Trap { cause, value } => Some(Action::Trap { cause, value }),
        Want::Call => None,
        Want::Look { va, width } => Some(Action::Load {
            operand: Operand { inst, va, width },
            reserving: false,
        }),
        Want::Reserve { va, width } => Some(Action::Load {
            operand: Operand { inst, va, width },
            reserving: true,
        }),
        Want::Put { va, width, value } => Some(Action::Store {
            operand: Operand { inst, va, width },
            write: Write::Put { value },
        }),
        Want::PutIf { va, width, value } => Some(Action::Store {
            operand: Operand { inst, va, width },
            write: Write::PutIf { value },
        }),
        Want::Swap {
            va,
            width,
            op,
            value,
        } => Some(Action::Store {
            operand: Operand { inst, va, width },
            write: Write::Swap { op, value },
        }),
    }
}

// The trap of a word that is no instruction.
fn illegal(word: u32) -> Action
    ensures { result ≡ Action.Trap ILLEGAL_INSTRUCTION word }
{
    Action::Trap {
        cause: ILLEGAL_INSTRUCTION,
        value: u64::from(word),
    }
}

// The registers after an instruction that wants nothing.
fn arch_after(arch: &Arch, inst: Inst) -> Arch
    requires spelled { IsSpelled inst }
    requires quiet { want_of inst arch.now ≡ Want.Nothing }
    ensures { result ≡ meaning_of inst arch.now 0 }
{
    finished(arch, inst, 0)
}

/// The registers after an instruction that read this, or that wants nothing.
pub fn finished(arch: &Arch, inst: Inst, got: u64) -> Arch
    requires spelled { IsSpelled inst }
    requires own { want_of inst arch.now ≢ Want.Call }
    requires no_trap { (cause value : ℕ) → want_of inst arch.now ≢ Want.Trap cause value }
    ensures { result ≡ meaning_of inst arch.now got }
{
    let mut next = *arch;
    finish(&mut next, inst, got);
    next
}
