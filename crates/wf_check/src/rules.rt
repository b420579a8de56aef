//! The rules that entries break, as statuses name them.
ghost use Rattle.std.specs.Prelude.{◌≡◌};
ghost use Rattle.wf_check.specs.Rules.{rule_of};

use wf_flat::Event;
use wf_status::EntryRule;

/// The rule of an event, which it breaks where the machine does not allow it.
pub fn rule_of(event: Event) -> EntryRule
    ensures { result ≡ rule_of event }
{
    match event {
        Event::Fetch { .. } => EntryRule::Fetch,
        Event::Look { .. } => EntryRule::Look,
        Event::Take { .. } => EntryRule::Take,
        Event::Put { .. } => EntryRule::Put,
        Event::Swap { .. } => EntryRule::Swap,
        Event::Miss { .. } => EntryRule::Miss,
        Event::End { .. } => EntryRule::End,
        Event::Again { .. } => EntryRule::Again,
        Event::Wait { .. } => EntryRule::Wait,
        Event::Enter => EntryRule::Enter,
        Event::Sync { .. } => EntryRule::Sync,
        Event::Trap { .. } => EntryRule::Trap,
        Event::Exit { .. } => EntryRule::Exit,
        Event::Out { .. } => EntryRule::Out,
        Event::Idle => EntryRule::Idle,
        Event::Map { .. } => EntryRule::Map,
        Event::Going { .. } => EntryRule::Going,
        Event::Ending { .. } => EntryRule::Ending,
        Event::Gone { .. } => EntryRule::Gone,
        Event::Born { .. } => EntryRule::Born,
        Event::Move { .. } => EntryRule::Move,
        Event::Dead { .. } => EntryRule::Dead,
        Event::Refused { .. } => EntryRule::Refused,
    }
}
