//! A page of data is met, and is taken.
ghost use Rattle.std.specs.Prelude.{◌≡◌, ◌<◌, ◌≤◌, ◌+◌, ◌∷◌, [], None, Some, length, map, vec_len, vec_capacity, true};
ghost use Rattle.std.specs.Option.{option_map};
ghost use Rattle.wf_flat.specs.declared.event.Event.TheVariants as events;
ghost use Rattle.wf_flat.specs.declared.state.Life.TheVariants.{Running};
ghost use Rattle.wf_outside.specs.Lists.{IsRising};
ghost use Rattle.wf_flat.specs.Memory.{data_in, has_met, with_met, met_key};
ghost use Rattle.wf_flat.specs.Steps.{OfHart, MayTake, access_in};
ghost use Rattle.wf_flat.specs.Changes.{taken_by};
ghost use Rattle.wf_verdict.specs.declared.work.Todo.TheVariants.{Exactly};
ghost use Rattle.wf_driver.specs.Stepping.{IsActing, IsToDo, IsMeeting, IsSame, StaysOpen};

use crate::finding::generation_of;
use wf_flat::{Actor, Entry, Event, Flat};
use wf_service::append;

// A hart's generation meets a page.
fn sync(
    flat: &mut Flat,
    journal: &mut Vec<Entry>,
    hart: u8,
    generation: u32,
    page: u32,
    met: Vec<(u32, u32)>,
)
    requires room { vec_len journal.old + 1 < vec_capacity journal.old }
    requires there { hart < length flat.old.harts }
    requires acts { IsActing flat.old hart None }
    requires met { met.items ≡ with_met flat.old.met generation page }
    requires rising { IsRising (map met_key met.items) }
    requires ready { OfHart flat.old hart
        (λ state. IsToDo flat.old hart state (Exactly (events.Sync generation page) ∷ [])) }
    ensures made { StaysOpen hart flat.old journal.old.items flat.new journal.new.items }
    ensures acts { IsActing flat.new hart None }
    ensures same { IsSame flat.old flat.new }
    ensures met { flat.new.met ≡ with_met flat.old.met generation page }
    ensures len { vec_len journal.new ≡ vec_len journal.old + 2 }
    ensures capacity { vec_capacity journal.new ≡ vec_capacity journal.old }
{
    flat.enter(Actor::Hart(hart));
    flat.sync(hart, met);
    append(journal, Actor::Hart(hart), Event::Enter);
    append(journal, Actor::Hart(hart), Event::Sync { generation, page });
}

// A hart's generation meets the page of its access, where `met` says what will be met then.
pub fn meet(
    flat: &mut Flat,
    journal: &mut Vec<Entry>,
    hart: u8,
    page: u32,
    met: Option<Vec<(u32, u32)>>,
)
    requires room { vec_len journal.old + 1 < vec_capacity journal.old }
    requires there { hart < length flat.old.harts }
    requires acts { IsActing flat.old hart None }
    requires met { IsMeeting flat.old hart page (option_map (λ v. v.items) met) }
    ensures made { StaysOpen hart flat.old journal.old.items flat.new journal.new.items }
    ensures acts { IsActing flat.new hart None }
    ensures same { IsSame flat.old flat.new }
    ensures met { OfHart flat.new hart
        (λ state. has_met flat.new.met state.generation page ≡ true) }
    ensures len { vec_len journal.new ≤ vec_len journal.old + 2 }
    ensures capacity { vec_capacity journal.new ≡ vec_capacity journal.old }
{
    if let Some(met) = met {
        let generation = generation_of(flat, hart);
        sync(flat, journal, hart, generation, page, met);
    }
}

// A page is taken.
pub fn take(flat: &mut Flat, journal: &mut Vec<Entry>, hart: u8, page: u32)
    requires room { vec_len journal.old < vec_capacity journal.old }
    requires there { hart < length flat.old.harts }
    requires acts { IsActing flat.old hart None }
    requires may { OfHart flat.old hart
        (λ state. (state.life ≡ Running) × MayTake flat.old state (access_in state) page) }
    ensures made { StaysOpen hart flat.old journal.old.items flat.new journal.new.items }
    ensures acts { IsActing flat.new hart (Some page) }
    ensures harts { flat.new.harts ≡ flat.old.harts }
    ensures gens { flat.new.gens ≡ flat.old.gens }
    ensures page { data_in flat.new.pages page
        ≡ option_map (taken_by hart) (data_in flat.old.pages page) }
    ensures len { vec_len journal.new ≡ vec_len journal.old + 1 }
    ensures capacity { vec_capacity journal.new ≡ vec_capacity journal.old }
{
    flat.take(hart, page);
    append(journal, Actor::Hart(hart), Event::Take { page });
}
