//! How a run of the program ended.
ghost use Rattle.std.specs.Prelude.{◌≡◌, IfOk};
ghost use Rattle.wf_status.specs.StatusText.{code_of, line_of};

use crate::{EntryRule, ImageRule, PatchWhy, SourceRule};
use std::alloc::Global;
use std::fmt;
use wf_outside::{Memory, Text};

/// What has a limit.
#[derive(Clone, Copy, Debug, PartialEq, Eq)]
pub enum LimitKind {
    /// The bytes of a file.
    File,
    /// The units of a script.
    Units,
    /// The patches of a script.
    Patches,
    /// The frames that the start of a run uses.
    Frames,
}

/// What is not built yet.
#[derive(Clone, Copy, Debug, PartialEq, Eq)]
pub enum Unbuilt {
    /// The command in this line of the script, counted from 1.
    Script { line: u64 },
    /// The instruction at this address, or what it asks for.
    Step { pc: u64 },
}

/// How a run ended.
#[derive(Clone, Copy, Debug, PartialEq, Eq)]
pub enum Status {
    /// All that was to be put was put.
    Done,
    /// No command has these words.
    Words,
    /// The image breaks this rule first, at this place, in bytes from the start of its file.
    Image {
        rule: ImageRule,
        at: u64,
    },
    /// Of the patches, by number from 0, this is the first that is none, for this fault.
    Patch {
        patch: u64,
        fault: PatchWhy,
    },
    /// The first wrong word of the script stands in this line, from this column on; where a word is
    /// missing, the column is one past the line's end. Both count from 1, columns by bytes.
    Script {
        line: u64,
        column: u64,
    },
    /// The assembler's source breaks this rule first, in this line, counted from 1.
    Source {
        rule: SourceRule,
        line: u64,
    },
    /// This line of the journal, counted from 1, is the first that may not stand where it does.
    Journal {
        line: u64,
    },
    /// A file could not be read.
    Shelf,
    /// The output could not be put.
    Sink,
    /// Memory ran out.
    Memory,
    /// This number passes what is allowed.
    Limit {
        what: LimitKind,
        number: u64,
        most: u64,
    },
    /// The entry at this place, counted from 0, is the first that the machine does not allow; or
    /// the final lines, which stand behind all entries, do not show the machine at its end.
    Illegal {
        index: u64,
        rule: EntryRule,
    },
    /// The run needs what is not built yet.
    Unbuilt {
        what: Unbuilt,
    },
}

impl Status {
    /// The exit status: 0 for `Done`, 1 for `Words`, 2 for `Image`, 3 for `Patch`, 4 for `Script`,
    /// `Source` and `Journal`, 5 for `Shelf`, 6 for `Sink`, 7 for `Memory`, 8 for `Limit`, 9 for
    /// `Illegal`, 10 for `Unbuilt`.
    pub fn code(&self) -> u8
        ensures { result ≡ code_of self.now }
    {
        match self {
            Status::Done => 0,
            Status::Words => 1,
            Status::Image { .. } => 2,
            Status::Patch { .. } => 3,
            Status::Script { .. } => 4,
            Status::Source { .. } => 4,
            Status::Journal { .. } => 4,
            Status::Shelf => 5,
            Status::Sink => 6,
            Status::Memory => 7,
            Status::Limit { .. } => 8,
            Status::Illegal { .. } => 9,
            Status::Unbuilt { .. } => 10,
        }
    }

    /// The line that says how the run ended, without its newline; empty for `Done`. Numbers are
    /// decimal, addresses lower-case hexadecimal.
    pub fn line(&self, alloc: Global) -> Result<Text, Memory>
        ensures { IfOk result (λ text. text ≡ line_of self.now) }
    {
        let line = format!(in alloc; "{self}")?;
        Ok(Text::from(line.into_bytes()))
    }
}

impl fmt::Display for LimitKind {
    ghost use Rattle.std.specs.Prelude.{Some};
    ghost use Rattle.wf_status.specs.StatusText.{limit_text};

    ghost output = { λ what. Some (limit_text what) };

    fn fmt<W: fmt::Write>(&self, f: &mut fmt::Formatter<W>) -> fmt::Result {
        match self {
            LimitKind::File => write!(f, "file"),
            LimitKind::Units => write!(f, "units"),
            LimitKind::Patches => write!(f, "patches"),
            LimitKind::Frames => write!(f, "frames"),
        }
    }
}

impl fmt::Display for Unbuilt {
    ghost use Rattle.std.specs.Prelude.{Some};
    ghost use Rattle.wf_status.specs.StatusText.{unbuilt_text};

    ghost output = { λ what. Some (unbuilt_text what) };

    fn fmt<W: fmt::Write>(&self, f: &mut fmt::Formatter<W>) -> fmt::Result {
        match *self {
            Unbuilt::Script { line } => write!(f, "script line {line}"),
            Unbuilt::Step { pc } => write!(f, "step {pc:x}"),
        }
    }
}

impl fmt::Display for Status {
    ghost use Rattle.std.specs.Prelude.{Some};
    ghost use Rattle.wf_status.specs.StatusText.{line_of};

    ghost output = { λ status. Some (line_of status) };

    fn fmt<W: fmt::Write>(&self, f: &mut fmt::Formatter<W>) -> fmt::Result {
        match *self {
            Status::Done => Ok(()),
            Status::Words => write!(f, "wfpatch: words"),
            Status::Image { rule, at } => write!(f, "wfpatch: image {rule} at {at}"),
            Status::Patch { patch, fault } => write!(f, "wfpatch: patch {patch} {fault}"),
            Status::Script { line, column } => {
                write!(f, "wfpatch: script line {line} column {column}")
            }
            Status::Source { rule, line } => write!(f, "wfpatch: source line {line} {rule}"),
            Status::Journal { line } => write!(f, "wfpatch: journal line {line}"),
            Status::Shelf => write!(f, "wfpatch: shelf"),
            Status::Sink => write!(f, "wfpatch: sink"),
            Status::Memory => write!(f, "wfpatch: memory"),
            Status::Limit { what, number, most } => {
                write!(f, "wfpatch: limit {what} {number} of {most}")
            }
            Status::Illegal { index, rule } => write!(f, "wfpatch: illegal entry {index} {rule}"),
            Status::Unbuilt { what } => write!(f, "wfpatch: unbuilt {what}"),
        }
    }
}
