//! Journals and reports: entries, first lines and final lines, as text.
#![tactic(auto)]

mod entries;
mod events;
mod fields;
mod finals;
mod headers;
mod journal;
mod laws;
mod reading;
mod reporting;
mod words;

pub use entries::{entry_text, push_entry};
pub use finals::final_text;
pub use headers::{push_header, push_lines};
pub use journal::{Journal, JournalFault};
pub use laws::entries_are_read_back;
pub use reading::read_journal;
pub use reporting::push_entries;
