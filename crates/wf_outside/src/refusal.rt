//! Why the kernel refuses a call.

/// Why a call of a program or of a script is refused. A refused call changes nothing but the
/// caller's answer and what its settling made leave.
#[derive(Clone, Copy, Debug, PartialEq, Eq)]
pub enum Refusal {
    /// The arguments break a rule of the call.
    Argument,
    /// The lowest page of the range that is there already.
    Overlap { page: u32 },
    /// The lowest page of the range that is no data page.
    Absent { page: u32 },
    /// The lowest page of the range that is leaving, and held still.
    Leaving { page: u32 },
    /// The call needs more frames than are free.
    NoFrames { need: u64, free: u64 },
    /// No live generation has this number.
    NoView { generation: u64 },
    /// The lowest running hart that is in the generation.
    NotEmpty { hart: u8 },
    /// The hart would go on at this address, inside a jump of the generation.
    Inside { at: u64 },
    /// 1,024 generations were born.
    Views,
    /// No call has this number.
    Number { n: u64 },
    /// The generation has only the first `n` patches of the script, and this patch has a greater
    /// number.
    Lacks { n: u64 },
}
