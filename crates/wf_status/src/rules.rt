//! The rules that a file breaks where it is no image.
use std::fmt;
use wf_outside::{ElfRule, LoadRule};

/// A rule that a file breaks where it is no image: of the file format, or of loading.
///
/// Executable and Linking Format, "ELF Header" to "Program Header"; RISC-V ELF psABI, "File
/// Header".
#[derive(Clone, Copy, Debug, PartialEq, Eq)]
pub enum ImageRule {
    /// The file is shorter than its header.
    Short,
    /// It does not begin with the four bytes of ELF.
    Magic,
    /// It is not of 64 bits.
    Class,
    /// Its numbers do not have the lowest byte first.
    Order,
    /// It is no executable.
    Kind,
    /// It is not for RISC-V.
    Machine,
    /// It has compressed code, or is for half of the registers.
    Flags,
    /// A table of headers or of symbols is not laid out as it must be.
    Table,
    /// A segment or a section passes the end of the file, or of the addresses.
    Range,
    /// A table of names, or a name in it, is not there.
    Strings,
    /// It has a segment of storage that is local to threads.
    TlsSegment,
    /// It asks for an interpreter.
    Interp,
    /// It is to be linked when it is loaded.
    Dynamic,
    /// A segment is writable and executable.
    WriteAndRun,
    /// A segment ends above the image's addresses.
    HighAddress,
    /// The segments meet more pages than an image may have.
    TooLarge,
    /// Two segments share a byte, or a page of which one makes text and the other data.
    SharedPage,
    /// The first instruction is not one of text.
    NoEntry,
}

impl From<ElfRule> for ImageRule {
    ghost use Rattle.std.specs.Prelude.{◌≡◌};
    ghost use Rattle.wf_status.specs.Rules.{of_file};

    ghost from_gives = { λ rule r. r ≡ of_file rule };

    fn from(rule: ElfRule) -> Self {
        match rule {
            ElfRule::Short => ImageRule::Short,
            ElfRule::Magic => ImageRule::Magic,
            ElfRule::Class => ImageRule::Class,
            ElfRule::Order => ImageRule::Order,
            ElfRule::Kind => ImageRule::Kind,
            ElfRule::Machine => ImageRule::Machine,
            ElfRule::Flags => ImageRule::Flags,
            ElfRule::Table => ImageRule::Table,
            ElfRule::Range => ImageRule::Range,
            ElfRule::Strings => ImageRule::Strings,
        }
    }
}

impl From<LoadRule> for ImageRule {
    ghost use Rattle.std.specs.Prelude.{◌≡◌};
    ghost use Rattle.wf_status.specs.Rules.{of_loading};

    ghost from_gives = { λ rule r. r ≡ of_loading rule };

    fn from(rule: LoadRule) -> Self {
        match rule {
            LoadRule::TlsSegment => ImageRule::TlsSegment,
            LoadRule::Interp => ImageRule::Interp,
            LoadRule::Dynamic => ImageRule::Dynamic,
            LoadRule::WriteAndRun => ImageRule::WriteAndRun,
            LoadRule::HighAddress => ImageRule::HighAddress,
            LoadRule::TooLarge => ImageRule::TooLarge,
            LoadRule::SharedPage => ImageRule::SharedPage,
            LoadRule::NoEntry => ImageRule::NoEntry,
        }
    }
}

impl fmt::Display for ImageRule {
    ghost use Rattle.std.specs.Prelude.{Some};
    ghost use Rattle.wf_status.specs.StatusText.{rule_text};

    ghost output = { λ rule. Some (rule_text rule) };

    fn fmt<W: fmt::Write>(&self, f: &mut fmt::Formatter<W>) -> fmt::Result {
        match self {
            ImageRule::Short => write!(f, "short"),
            ImageRule::Magic => write!(f, "magic"),
            ImageRule::Class => write!(f, "class"),
            ImageRule::Order => write!(f, "order"),
            ImageRule::Kind => write!(f, "kind"),
            ImageRule::Machine => write!(f, "machine"),
            ImageRule::Flags => write!(f, "flags"),
            ImageRule::Table => write!(f, "table"),
            ImageRule::Range => write!(f, "range"),
            ImageRule::Strings => write!(f, "strings"),
            ImageRule::TlsSegment => write!(f, "tlssegment"),
            ImageRule::Interp => write!(f, "interp"),
            ImageRule::Dynamic => write!(f, "dynamic"),
            ImageRule::WriteAndRun => write!(f, "writeandrun"),
            ImageRule::HighAddress => write!(f, "highaddress"),
            ImageRule::TooLarge => write!(f, "toolarge"),
            ImageRule::SharedPage => write!(f, "sharedpage"),
            ImageRule::NoEntry => write!(f, "noentry"),
        }
    }
}
