//! Deletes of generations: room for the plan, and the plan.
ghost use Rattle.std.specs.Prelude.{◌≡◌, Some, None, IfOk, MatchResult, OnErr, OnOk};
ghost use Rattle.wf_space.specs.Jobs.{IsEmpty};
ghost use Rattle.wf_residents.specs.Plans.{HasRoomForOne, IsDeletionPlan};
ghost use Rattle.wf_residents.specs.Refusals as refusals;
ghost use Rattle.wf_residents.specs.Refusals.{CanDelete, IsFaultOf};

use crate::migrating::plan_for_one;
use crate::refusing::deletion_refusal;
use crate::residing::live_number;
use std::alloc::Global;
use wf_outside::{Memory, Refusal};
use wf_space::SpaceFault;
use wf_views::{Change, Plan, Records};

/// An empty plan with room for a delete. It takes all the memory of the delete.
///
/// # Errors
///
/// `Memory` where it runs out.
pub fn prepare_deletion(alloc: Global) -> Result<Plan, Memory>
    ensures empty { IfOk result IsEmpty }
    ensures room { IfOk result HasRoomForOne }
{
    plan_for_one(alloc)
}

/// The plan of the delete of a generation, in a plan that is empty and has room for it. It takes no
/// memory.
///
/// # Errors
///
/// The first refusal that applies; nothing is in the plan then.
pub fn fill_deletion(records: &Records, plan: &mut Plan, generation: u64) -> Result<(), Refusal>
    requires can { CanDelete records.now generation }
    requires room { HasRoomForOne plan.old }
    requires empty { IsEmpty plan.old }
    ensures planned { OnOk result (IsDeletionPlan generation plan.new) }
    ensures refused { MatchResult result
        (λ _. refusals.deletion_refusal records.now generation ≡ None)
        (λ reason. refusals.deletion_refusal records.now generation ≡ Some reason) }
    ensures empty { OnErr result (IsEmpty plan.new) }
{
    if let Some(reason) = deletion_refusal(records, generation) {
        return Err(reason);
    }
    let Some(generation) = live_number(records, generation) else {
        unreachable!();
    };
    plan.changes.push(Change::Dead { generation });
    Ok(())
}

/// The plan of the delete of a generation. Nothing is done yet.
///
/// # Errors
///
/// `Refused` with the first refusal that applies, and `Memory` where it runs out.
pub fn plan_deletion(alloc: Global, records: &Records, generation: u64) -> Result<Plan, SpaceFault>
    requires { CanDelete records.now generation }
    ensures plan { IfOk result (IsDeletionPlan generation) }
    ensures fault { MatchResult result
        (λ _. refusals.deletion_refusal records.now generation ≡ None)
        (IsFaultOf (refusals.deletion_refusal records.now generation)) }
{
    let mut plan = prepare_deletion(alloc)?;
    fill_deletion(records, &mut plan, generation)?;
    Ok(plan)
}
