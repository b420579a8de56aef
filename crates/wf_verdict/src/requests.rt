//! What is requested of the kernel.
ghost use Rattle.std.specs.Prelude.{◌≡◌};
ghost use Rattle.wf_verdict.specs.Requests as requests;

use wf_calls::{CREATE, DELETE, EXIT, MAP, MIGRATE, OWN_GENERATION, PUT_BYTE, QUIESCE, UNMAP};
use wf_flat::FlatHart;

/// What is requested of the kernel: by a program, with a call, or by the kernel's own actor, for a
/// script.
#[derive(Clone, Copy, Debug, PartialEq, Eq)]
pub enum Request {
    /// To stop, with this code.
    Exits { code: u64 },
    /// To put this byte.
    PutsByte { byte: u8 },
    /// To map pages of zeros: from this address on, so many, with this right (1 to read, 3 to read
    /// and write).
    Maps { va: u64, pages: u64, right: u64 },
    /// To unmap pages: from this address on, so many.
    Unmaps { va: u64, pages: u64 },
    /// To be told the own generation.
    TellsGeneration,
    /// To move to this generation.
    Migrates { generation: u64 },
    /// To move to the newest generation.
    Quiesces,
    /// To delete this generation.
    Deletes { generation: u64 },
    /// To clone this generation.
    Clones { generation: u64 },
    /// To clone the newest generation with this patch of the run.
    Patches { patch: u32 },
    /// A call of this number, of which there is none.
    NoCall { number: u64 },
}

/// What a program requests that is in this generation, by the number of a call and its arguments.
pub fn request_of(own: u32, number: u64, a0: u64, a1: u64, a2: u64) -> Request
    ensures { result ≡ requests.request_of own number a0 a1 a2 }
{
    if number == EXIT {
        Request::Exits { code: a0 }
    } else if number == PUT_BYTE {
        Request::PutsByte {
            byte: (a0 % 256) as u8,
        }
    } else if number == MAP {
        Request::Maps {
            va: a0,
            pages: a1,
            right: a2,
        }
    } else if number == UNMAP {
        Request::Unmaps { va: a0, pages: a1 }
    } else if number == OWN_GENERATION {
        Request::TellsGeneration
    } else if number == MIGRATE {
        Request::Migrates { generation: a0 }
    } else if number == QUIESCE {
        Request::Quiesces
    } else if number == DELETE {
        Request::Deletes { generation: a0 }
    } else if number == CREATE {
        Request::Clones {
            generation: own as u64,
        }
    } else {
        Request::NoCall { number }
    }
}

/// What a hart requests whose instruction is an ecall: the number of the call is in a7, which is
/// x17, and its arguments in a0 to a2, which are x10 to x12.
///
/// RISC-V ELF psABI, "Integer Register Convention".
pub fn requested_by(hart: &FlatHart) -> Request
    ensures { result ≡ requests.requested_by hart.now }
{
    let x = &hart.arch.x;
    request_of(hart.generation, x[17], x[10], x[11], x[12])
}
