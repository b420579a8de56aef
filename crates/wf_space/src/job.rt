//! What a call is to do with memory.

/// What a call is to do with memory.
#[derive(Clone, Copy, Debug, PartialEq, Eq)]
pub enum Job {
    /// So many pages of data are unmapped, from that of an address on.
    Unmap { va: u64, pages: u64 },
    /// A generation meets a page of data.
    Sync { generation: u32, page: u32 },
}
