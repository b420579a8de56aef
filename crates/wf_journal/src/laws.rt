//! What holds of the texts of entries.
ghost use Rattle.std.specs.Prelude.{◌≡◌, ℕ, List, Some};
ghost use Rattle.wf_flat.specs.declared.event.Entry.{Entry};
ghost use Rattle.wf_journal.specs.Entries.{entry_bytes};
ghost use Rattle.wf_journal.specs.Events.{entry_of};
ghost use Rattle.wf_journal.specs.Laws.{IsEntry};

/// What is written of an entry is read back as it, what is read as an entry is what is written of
/// it, and no two entries have one text, where their fields have their sizes.
pub fn entries_are_read_back()
    ensures again { (harts : ℕ) (entry : Entry) →
        IsEntry harts entry → entry_of harts (entry_bytes entry) ≡ Some entry }
    ensures written { (harts : ℕ) (line : List ℕ) (entry : Entry) →
        entry_of harts line ≡ Some entry → IsEntry harts entry × (line ≡ entry_bytes entry) }
    ensures apart { (harts : ℕ) (d e : Entry) →
        IsEntry harts d → IsEntry harts e → entry_bytes d ≡ entry_bytes e → d ≡ e }
{}
