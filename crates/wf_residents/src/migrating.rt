//! Moves of harts: room for the plan, and the plan.
ghost use Rattle.std.specs.Prelude.{◌≡◌, Some, None, IfOk, IsSome, MatchResult, OnErr, OnOk};
ghost use Rattle.wf_views.specs.Views.{newest_of};
ghost use Rattle.wf_space.specs.Carried.{StandAlike};
ghost use Rattle.wf_space.specs.Jobs.{IsEmpty};
ghost use Rattle.wf_residents.specs.Plans as plans;
ghost use Rattle.wf_residents.specs.Plans.{HasRoomForOne, HasRoomToMove, IsMigrationPlan, with_resident_place};
ghost use Rattle.wf_residents.specs.Refusals as refusals;
ghost use Rattle.wf_residents.specs.Refusals.{CanMigrate, IsFaultOf};

use crate::Migration;
use crate::refusing::migration_refusal;
use crate::residing::{live_number, residence_of};
use std::alloc::Global;
use wf_outside::{Memory, Refusal};
use wf_space::SpaceFault;
use wf_views::{Change, Plan, Records};

/// The move of a hart to the newest generation, where it goes on at an address.
pub fn quiesce_of(records: &Records, hart: u8, next: u64) -> Migration
    requires { IsSome records.now.views.last }
    ensures hart { result.hart ≡ hart }
    ensures next { result.next ≡ next }
    ensures newest { newest_of records.now.views ≡ Some result.generation }
{
    let generation = u64::from(records.views.newest());
    Migration {
        hart,
        next,
        generation,
    }
}

/// An empty plan with room for one change.
pub(crate) fn plan_for_one(alloc: Global) -> Result<Plan, Memory>
    ensures empty { IfOk result IsEmpty }
    ensures room { IfOk result HasRoomForOne }
{
    let mut plan = Plan::new(alloc);
    plan.changes.reserve(1)?;
    Ok(plan)
}

// Room for one more resident in the view of a generation, if it lives.
fn reserve_resident(records: &mut Records, generation: u64) -> Result<(), Memory>
    ensures ok { OnOk result (records.new ≡ with_resident_place records.old generation) }
    ensures err { OnErr result (records.new ≡ records.old) }
{
    let Some(number) = live_number(records, generation) else {
        return Ok(());
    };
    records.views.reserve_residents(number, 1)
}

/// An empty plan with room for the move of a hart, for which there is room in the view that it
/// moves to, too. It takes all the memory of the move, and changes nothing else.
///
/// # Errors
///
/// `Memory` where it runs out; the records are as they were.
pub fn prepare_migration(
    alloc: Global,
    records: &mut Records,
    migration: Migration,
) -> Result<Plan, Memory>
    ensures empty { IfOk result IsEmpty }
    ensures room { IfOk result HasRoomForOne }
    ensures made { OnOk result
        (records.new ≡ with_resident_place records.old migration.generation) }
    ensures err { OnErr result (records.new ≡ records.old) }
{
    let plan = plan_for_one(alloc)?;
    reserve_resident(records, migration.generation)?;
    Ok(plan)
}

// The changes of a hart's move from a generation: none within it.
fn plan_change(plan: &mut Plan, hart: u8, from: u32, to: u32)
    requires room { HasRoomForOne plan.old }
    requires empty { IsEmpty plan.old }
    ensures pieces { plan.new.pieces ≡ plan.old.pieces }
    ensures changes { plan.new.changes.items ≡ plans.changes_between hart from to }
{
    if from != to {
        plan.changes.push(Change::Move { hart, from, to });
    }
}

/// The plan of the move of a hart, which is in a view, in a plan that is empty and has room for it.
/// It takes no memory.
///
/// # Errors
///
/// The first refusal that applies; nothing is in the plan then.
pub fn fill_migration(
    records: &Records,
    plan: &mut Plan,
    migration: Migration,
) -> Result<(), Refusal>
    requires can { CanMigrate records.now migration.hart }
    requires room { HasRoomForOne plan.old }
    requires empty { IsEmpty plan.old }
    ensures planned { OnOk result (IsMigrationPlan records.now migration plan.new) }
    ensures refused { MatchResult result
        (λ _. refusals.migration_refusal records.now migration ≡ None)
        (λ reason. refusals.migration_refusal records.now migration ≡ Some reason) }
    ensures empty { OnErr result (IsEmpty plan.new) }
{
    if let Some(reason) = migration_refusal(records, migration) {
        return Err(reason);
    }
    let Some(to) = live_number(records, migration.generation) else {
        unreachable!();
    };
    let Some(from) = residence_of(records, migration.hart) else {
        unreachable!();
    };
    plan_change(plan, migration.hart, from, to);
    Ok(())
}

/// The plan of the move of a hart, which is in a view. Nothing is done yet, but that there may be
/// more room in the records.
///
/// # Errors
///
/// `Refused` with the first refusal that applies, and `Memory` where it runs out.
pub fn plan_migration(
    alloc: Global,
    records: &mut Records,
    migration: Migration,
) -> Result<Plan, SpaceFault>
    requires { CanMigrate records.old migration.hart }
    ensures plan { IfOk result (IsMigrationPlan records.new migration) }
    ensures room { OnOk result (HasRoomToMove records.new migration) }
    ensures fault { MatchResult result
        (λ _. refusals.migration_refusal records.old migration ≡ None)
        (IsFaultOf (refusals.migration_refusal records.old migration)) }
    ensures alike { StandAlike records.old records.new }
{
    let mut plan = prepare_migration(alloc, records, migration)?;
    fill_migration(records, &mut plan, migration)?;
    Ok(plan)
}
