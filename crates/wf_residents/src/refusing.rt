//! What moves of harts and deletes of generations are refused for.
ghost use Rattle.std.specs.Prelude.{◌≡◌, ◌<◌};
ghost use Rattle.std.specs.List.{AllByRecursion, list_any};
ghost use Rattle.wf_verdict.specs.Verdict as verdict;
ghost use Rattle.wf_residents.specs.Refusals as refusals;
ghost use Rattle.wf_residents.specs.Refusals.{CanDelete};

use crate::Migration;
use crate::residing::view_at;
use wf_outside::{Jump, Refusal};
use wf_views::{Records, View};

// Whether an address is inside a jump.
fn is_in_jump(jump: &Jump, at: u64) -> bool
    ensures { result ≡ verdict.is_in_jump at jump.now }
{
    jump.at < at && at - jump.at < 8
}

// Whether an address is inside one of the jumps.
fn is_in_jumps(jumps: &[Jump], at: u64) -> bool
    ensures { result ≡ list_any (verdict.is_in_jump at) jumps.now }
{
    jumps.iter().any(|jump| is_in_jump(jump, at))
}

/// What the move of a hart is refused for: NoView, where the generation doesn't live, and else
/// Inside, where the address at which the hart goes on is inside a jump of the generation's text.
pub(crate) fn migration_refusal(records: &Records, migration: Migration) -> Option<Refusal>
    ensures { result ≡ refusals.migration_refusal records.now migration }
{
    let Some(view) = view_at(records, migration.generation) else {
        return Some(Refusal::NoView {
            generation: migration.generation,
        });
    };
    if is_in_jumps(&view.jumps, migration.next) {
        Some(Refusal::Inside { at: migration.next })
    } else {
        None
    }
}

// The lowest hart that is in a view.
fn lowest_resident(view: &View) -> Option<u8>
    requires { AllByRecursion (λ hart. hart < 256) view.now.residents.items }
    ensures { result ≡ refusals.lowest_resident view.now }
{
    let hart = view.residents.as_slice().first()?;
    Some(*hart as u8)
}

/// What the delete of a generation is refused for: NoView, where it doesn't live, and else
/// NotEmpty, with the lowest hart that is in it.
pub(crate) fn deletion_refusal(records: &Records, generation: u64) -> Option<Refusal>
    requires { CanDelete records.now generation }
    ensures { result ≡ refusals.deletion_refusal records.now generation }
{
    let Some(view) = view_at(records, generation) else {
        return Some(Refusal::NoView { generation });
    };
    let hart = lowest_resident(view)?;
    Some(Refusal::NotEmpty { hart })
}
