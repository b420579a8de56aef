//! Moves of harts and deletes of generations, carried out.
ghost use Rattle.std.specs.Prelude.{◌≡◌, IsSome};
ghost use Rattle.wf_views.specs.Views.{view_of, with_view, without_resident};
ghost use Rattle.wf_residents.specs.Carried.{IsDeleted, IsDeletionNow, IsMigrated, IsMigrationNow};

use wf_frames::Words;
use wf_space::carry_out;
use wf_views::{Plan, Records};

/// The plan of a hart's move that was made last is carried out. Words and records stand for the
/// state in which the hart has moved then.
pub fn carry_migration(words: &mut Words, records: &mut Records, plan: Plan)
    requires { IsMigrationNow words.old records.old plan }
    ensures words { words.new ≡ words.old }
    ensures carried { IsMigrated words.old records.old plan records.new }
{
    let _count = records.views.len();
    carry_out(words, records, plan);
}

/// The plan of a delete that was made last is carried out. Words and records stand for the state in
/// which the generation lives no more then.
pub fn carry_deletion(words: &mut Words, records: &mut Records, plan: Plan)
    requires { IsDeletionNow words.old records.old plan }
    ensures words { words.new ≡ words.old }
    ensures carried { IsDeleted words.old records.old plan records.new }
{
    carry_out(words, records, plan);
}

/// A hart that stops leaves the view of its generation, which is there.
pub fn stop_hart(records: &mut Records, hart: u8, generation: u32)
    requires { IsSome (view_of records.old.views generation) }
    ensures { records.new
        ≡ record records.old {
          views = with_view records.old.views generation (without_resident hart);
        } }
{
    records.views.release(generation, hart);
}
