//! The rules of lines.
use std::fmt;

/// What keeps a line from replacing a function.
#[derive(Clone, Copy, Debug, PartialEq, Eq)]
pub enum LineRule {
    /// One of the names is not there, or no function: what takes the place is in no section of the
    /// object that is loaded and may be run, what is replaced is not in the text, or one of them is
    /// at no multiple of 4.
    NoFunction,
    /// One of the names stands for two addresses.
    Several,
    /// What is replaced has fewer bytes than the jump.
    TooSmall,
    /// The jump does not reach so far.
    JumpReach,
    /// The jump would change a part of another one.
    JumpsMeet,
}

impl fmt::Display for LineRule {
    ghost use Rattle.std.specs.Prelude.{Some};
    ghost use Rattle.patch_rules.specs.RuleText.{line_rule_text};

    ghost output = { λ rule. Some (line_rule_text rule) };

    fn fmt<W: fmt::Write>(&self, f: &mut fmt::Formatter<W>) -> fmt::Result {
        match self {
            LineRule::NoFunction => write!(f, "nofunction"),
            LineRule::Several => write!(f, "several"),
            LineRule::TooSmall => write!(f, "toosmall"),
            LineRule::JumpReach => write!(f, "jumpreach"),
            LineRule::JumpsMeet => write!(f, "jumpsmeet"),
        }
    }
}
