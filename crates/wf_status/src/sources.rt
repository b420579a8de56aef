//! The rules that a line of an assembler's source breaks.
use std::fmt;

/// A rule that a line of an assembler's source breaks. A source breaks first that of its first line
/// that is Syntax or Twice; where none is, that of its first line that is Unknown or Range.
#[derive(Clone, Copy, Debug, PartialEq, Eq)]
pub enum SourceRule {
    /// The line is none of the language.
    Syntax,
    /// It defines a label that an earlier line defines.
    Twice,
    /// It names what no line defines.
    Unknown,
    /// A number or a distance does not fit, or a section or the file is too long.
    Range,
}

impl fmt::Display for SourceRule {
    ghost use Rattle.std.specs.Prelude.{Some};
    ghost use Rattle.wf_status.specs.StatusText.{source_text};

    ghost output = { λ rule. Some (source_text rule) };

    fn fmt<W: fmt::Write>(&self, f: &mut fmt::Formatter<W>) -> fmt::Result {
        match self {
            SourceRule::Syntax => write!(f, "syntax"),
            SourceRule::Twice => write!(f, "twice"),
            SourceRule::Unknown => write!(f, "unknown"),
            SourceRule::Range => write!(f, "range"),
        }
    }
}
