//! Why a patch is none.
use crate::ImageRule;
use patch_rules::{LineRule, LinkRule, SectionRule};
use std::fmt;
use wf_outside::ElfRule;

/// Why a patch is none: a fault of its file, of its object's file, or of what is to be built of
/// both.
#[derive(Clone, Copy, Debug, PartialEq, Eq)]
pub enum PatchWhy {
    /// The first line of its file, counted from 1, that is not as it should be, or one past the
    /// last where the header's or the object's is missing.
    Text {
        line: u64,
    },
    /// Its object breaks this rule of the file format first, at this place, in bytes from the start
    /// of the object's file.
    Elf {
        rule: ElfRule,
        at: u64,
    },
    /// The first section of its object, by number, that is to be loaded and breaks a rule.
    Section {
        index: u32,
        rule: SectionRule,
    },
    /// The first symbol of its object, by number, that is still to be given a place.
    Common {
        symbol: u32,
    },
    /// It has too many pages, or they would pass those of data: how many it has, or 2^64 - 1 where
    /// that is more.
    Area {
        pages: u64,
    },
    /// The first line of its file, counted from 1, that can't replace a function.
    Line {
        line: u64,
        rule: LineRule,
    },
    /// The first relocation of its object that can't be applied: the number of its relocation
    /// section, and its place there from 0.
    Link {
        group: u32,
        index: u64,
        rule: LinkRule,
    },
}

impl fmt::Display for PatchWhy {
    ghost use Rattle.std.specs.Prelude.{Some};
    ghost use Rattle.wf_status.specs.StatusText.{patch_text};

    ghost output = { λ fault. Some (patch_text fault) };

    fn fmt<W: fmt::Write>(&self, f: &mut fmt::Formatter<W>) -> fmt::Result {
        match *self {
            PatchWhy::Text { line } => write!(f, "line {line}"),
            PatchWhy::Elf { rule, at } => {
                let rule = ImageRule::from(rule);
                write!(f, "object {rule} at {at}")
            }
            PatchWhy::Section { index, rule } => write!(f, "section {index} {rule}"),
            PatchWhy::Common { symbol } => write!(f, "common {symbol}"),
            PatchWhy::Area { pages } => write!(f, "area {pages}"),
            PatchWhy::Line { line, rule } => write!(f, "line {line} {rule}"),
            PatchWhy::Link { group, index, rule } => write!(f, "relocation {group} {index} {rule}"),
        }
    }
}
