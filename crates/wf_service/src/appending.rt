//! Entries of a journal for which there is room.
ghost use Rattle.std.specs.Prelude.{◌≡◌, ◌<◌, ◌+◌, ◌++◌, ◌∷◌, [], vec_len, vec_capacity};

use wf_flat::{Actor, Entry, Event};

/// An entry of an actor, for which there is room.
pub fn append(journal: &mut Vec<Entry>, actor: Actor, event: Event)
    requires { vec_len journal.old < vec_capacity journal.old }
    ensures items { journal.new.items
        ≡ journal.old.items ++ record { actor = actor; event = event } ∷ [] }
    ensures len { vec_len journal.new ≡ vec_len journal.old + 1 }
    ensures capacity { vec_capacity journal.new ≡ vec_capacity journal.old }
{
    journal.push_reserved(Entry { actor, event });
}
