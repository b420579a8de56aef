//! Births of generations, carried out.
ghost use Rattle.std.specs.Prelude.{◌≡◌, length, map};
ghost use Rattle.wf_outside.specs.Lists.{IsRising};
ghost use Rattle.wf_frames.specs.Layout.{word_count};
ghost use Rattle.wf_views.specs.Pages.{page_number};
ghost use Rattle.wf_views.specs.Views.{generation_number};
ghost use Rattle.wf_created.specs.Created.{IsBirthCarriedOut, IsCurrentBirth};

use wf_frames::Words;
use wf_space::carry_out;
use wf_views::{Plan, Records};

// The views of records stand by rising generation.
fn views_rise(records: &Records)
    ensures { IsRising (map generation_number records.now.views.views) }
{
    let _count = records.views.len();
}

// The pages of data of records stand by rising number.
fn pages_rise(records: &Records)
    ensures { IsRising (map page_number records.now.pages.items) }
{
    let _pages = records.pages.as_slice();
}

// All words are there.
fn words_are_there(words: &Words)
    ensures { length words.now.items ≡ word_count words.now.frames }
{
    let _count = words.len();
}

/// The plan of a birth that was made last for these words and records is carried out, all of it.
/// Words and records stand for the state in which the generation is born then.
pub fn carry_create(words: &mut Words, records: &mut Records, plan: Plan)
    requires { IsCurrentBirth words.old records.old plan }
    ensures { IsBirthCarriedOut words.old records.old plan words.new records.new }
{
    views_rise(records);
    pages_rise(records);
    carry_out(words, records, plan);
    words_are_there(words);
}
