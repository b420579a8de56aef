//! The lines of a journal's entries.
ghost use Rattle.std.specs.Prelude.{◌≡◌, ◌++◌, OnOk};
ghost use Rattle.std.specs.List.{flat_map};
ghost use Rattle.wf_journal.specs.Lines.{entry_line};

use crate::entries::push_entry;
use wf_flat::Entry;
use wf_outside::Memory;

/// Appends the lines of entries, each with its newline.
pub fn push_entries(out: &mut Vec<u8>, journal: &[Entry]) -> Result<(), Memory>
    ensures { OnOk result (out.new.items ≡ out.old.items ++ flat_map entry_line journal.now) }
{
    for entry in journal {
        push_entry(out, entry)?;
    }
    Ok(())
}
