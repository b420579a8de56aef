//! The rules of sections.
use std::fmt;

/// What keeps a section from being loaded.
///
/// System V ABI, "Sections", `sh_flags` and `sh_addralign`.
#[derive(Clone, Copy, Debug, PartialEq, Eq)]
pub enum SectionRule {
    /// Each thread would have it for itself.
    Tls,
    /// Its bytes are compressed.
    Compressed,
    /// Its alignment is no power of two, or above the bytes of a page.
    Align,
    /// It may be written and run.
    WriteAndRun,
}

impl fmt::Display for SectionRule {
    ghost use Rattle.std.specs.Prelude.{Some};
    ghost use Rattle.patch_rules.specs.RuleText.{section_rule_text};

    ghost output = { λ rule. Some (section_rule_text rule) };

    fn fmt<W: fmt::Write>(&self, f: &mut fmt::Formatter<W>) -> fmt::Result {
        match self {
            SectionRule::Tls => write!(f, "tls"),
            SectionRule::Compressed => write!(f, "compressed"),
            SectionRule::Align => write!(f, "align"),
            SectionRule::WriteAndRun => write!(f, "writeandrun"),
        }
    }
}
