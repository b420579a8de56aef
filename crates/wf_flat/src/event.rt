//! What a machine does, entry by entry.
use wf_outside::Refusal;

/// Who acts: a hart by its number, or the kernel for a script.
#[derive(Clone, Copy, Debug, PartialEq, Eq)]
pub enum Actor {
    /// The hart of this number.
    Hart(u8),
    /// The kernel's own actor.
    Kernel,
}

/// What an actor waits for: the holder of a page, or the actor that is inside the kernel.
#[derive(Clone, Copy, Debug, PartialEq, Eq)]
pub enum WaitFor {
    /// The holder of the page is to give it back.
    Page { page: u32 },
    /// This actor is to leave the kernel.
    Kernel { actor: Actor },
}

/// One change of the machine. Addresses are virtual, pages are numbers, an address divided by
/// 4,096, widths count bytes, and values are unsigned.
#[derive(Clone, Copy, Debug, PartialEq, Eq)]
pub enum Event {
    /// A try begins: the word at the pc was fetched from the text of the hart's generation.
    Fetch {
        pc: u64,
        word: u32,
    },
    /// A load or a load-reserved read these bytes.
    Look {
        va: u64,
        width: u8,
        value: u64,
    },
    /// The hart became the holder of the page.
    Take {
        page: u32,
    },
    /// A store or a store-conditional wrote these bytes.
    Put {
        va: u64,
        width: u8,
        value: u64,
    },
    /// An atomic memory operation read one value and wrote another.
    Swap {
        va: u64,
        width: u8,
        old: u64,
        new: u64,
    },
    /// A store-conditional failed.
    Miss {
        va: u64,
    },
    /// The instruction, or the call, ended; the next pc.
    End {
        pc: u64,
    },
    /// The try ended and changed nothing, since the page changed under it.
    Again {
        page: u32,
    },
    /// The try ended, since another is in its way.
    Wait {
        on: WaitFor,
    },
    /// The actor is inside the kernel.
    Enter,
    /// The generation met the page.
    Sync {
        generation: u32,
        page: u32,
    },
    /// The hart stopped at a trap, with its cause and value.
    Trap {
        cause: u8,
        value: u64,
    },
    /// The hart exited.
    Exit {
        code: u64,
    },
    /// A byte was put.
    Out {
        byte: u8,
    },
    /// The actor had nothing to do.
    Idle,
    /// So many pages were mapped from this one on: of a patch, or of zeros.
    Map {
        page: u32,
        n: u64,
        write: bool,
        patch: Option<u32>,
    },
    /// An unmap of so many pages has begun.
    Going {
        page: u32,
        n: u64,
    },
    /// The page is to leave when its holder gives it back.
    Ending {
        page: u32,
    },
    /// The page has left, and its frame is used no more where it is worn.
    Gone {
        page: u32,
        worn: bool,
    },
    /// A generation was made, of its parent and a patch.
    Born {
        generation: u32,
        parent: u32,
        patch: Option<u32>,
    },
    /// The hart moved to a generation.
    Move {
        generation: u32,
    },
    /// A generation was deleted.
    Dead {
        generation: u32,
    },
    /// The call was refused.
    Refused {
        reason: Refusal,
    },
}

/// An event with its actor.
#[derive(Clone, Copy, Debug, PartialEq, Eq)]
pub struct Entry {
    pub actor: Actor,
    pub event: Event,
}
