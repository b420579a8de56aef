//! What a hart asks of the kernel.
ghost use Rattle.std.specs.Prelude.{◌≡◌, slice_index};

use rv_inst::Arch;

/// What a hart asks of the kernel.
#[derive(Clone, Copy, Debug, PartialEq, Eq)]
pub enum Ask {
    /// A call, by an ecall: its number and its arguments, as the registers have them.
    Call {
        number: u64,
        a0: u64,
        a1: u64,
        a2: u64,
    },
    /// An access to an address that the hart's view doesn't allow: a fetch, a load or a store.
    Fault {
        va: u64,
        right: Right,
    },
    /// To stop with a trap, with its cause and value.
    Stop {
        cause: u8,
        value: u64,
    },
}

/// What an access needs of a page.
#[derive(Clone, Copy, Debug, PartialEq, Eq)]
pub enum Right {
    /// To be executed.
    Fetch,
    /// To be read.
    Load,
    /// To be written.
    Store,
}

/// The call of a hart whose instruction is an ecall: its number is in a7, which is x17, and its
/// arguments in a0 to a2, which are x10 to x12. Each number is read, also one that no call has.
///
/// RISC-V ELF psABI, "Integer Register Convention".
pub fn read_call(arch: &Arch) -> Ask
    ensures { result ≡ Ask.Call
        (slice_index arch.now.x 17)
        (slice_index arch.now.x 10)
        (slice_index arch.now.x 11)
        (slice_index arch.now.x 12) }
{
    let Arch { x, .. } = *arch;
    Ask::Call {
        number: x[17],
        a0: x[10],
        a1: x[11],
        a2: x[12],
    }
}
