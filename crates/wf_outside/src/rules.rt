//! What a file breaks where it is no image.

/// A rule of the file format that an ELF file breaks.
///
/// Executable and Linking Format, "ELF Header" to "Symbol Table"; RISC-V ELF psABI, "File Header".
#[derive(Clone, Copy, Debug, PartialEq, Eq)]
pub enum ElfRule {
    /// The file is shorter than its header.
    Short,
    /// It does not begin with the four bytes of ELF.
    Magic,
    /// It is not of 64 bits.
    Class,
    /// Its numbers do not have the lowest byte first.
    Order,
    /// It is not of the kind that was asked for.
    Kind,
    /// It is not for RISC-V.
    Machine,
    /// It has compressed code, or is for half of the registers.
    Flags,
    /// A table of headers, of symbols or of relocations is not laid out as it must be.
    Table,
    /// A segment or a section passes the end of the file, or of the addresses.
    Range,
    /// A table of names, or a name in it, is not there.
    Strings,
}

/// A rule of loading that an ELF file breaks.
///
/// Executable and Linking Format, "Program Header".
#[derive(Clone, Copy, Debug, PartialEq, Eq)]
pub enum LoadRule {
    /// It has a segment of storage that is local to threads.
    TlsSegment,
    /// It asks for an interpreter.
    Interp,
    /// It is to be linked when it is loaded.
    Dynamic,
    /// A segment is writable and executable.
    WriteAndRun,
    /// A segment ends above the image's addresses.
    HighAddress,
    /// The segments meet more pages than an image may have.
    TooLarge,
    /// Two segments share a byte, or a page of which one makes text and the other data.
    SharedPage,
    /// The first instruction is not one of text.
    NoEntry,
}
