//! What each job is to do: room for its plan, and the plan.
ghost use Rattle.std.specs.Prelude.{◌≡◌, ◌≤◌, ◌+◌, ◌*◌, [], None, Some, IfOk, IfSome, MatchResult, OnErr, OnOk, length};
ghost use Rattle.wf_space.specs.Jobs.{CanDo, HasRoomFor, IsEmpty, IsPlanOf, refusal_in, with_room_for};

use crate::Job;
use crate::leaves::{leaf_for, leaf_place, node_for};
use crate::unmapping::{clear_pages, first_absent, first_leaving, leave_pages, set_going};
use std::alloc::Global;
use wf_outside::{Memory, PAGE_SIZE, Refusal};
use wf_views::{Change, Piece, Plan, Records};

// A plan with room for so many pieces and changes.
fn plan_with(alloc: Global, pieces: u64, changes: u64) -> Result<Plan, Memory>
    ensures empty { IfOk result IsEmpty }
    ensures pieces { IfOk result (λ plan. pieces ≤ plan.pieces.room) }
    ensures changes { IfOk result (λ plan. changes ≤ plan.changes.room) }
{
    let mut plan = Plan::new(alloc);
    plan.pieces.reserve(pieces)?;
    plan.changes.reserve(changes)?;
    Ok(plan)
}

// The most pieces of an unmap of so many pages: a leaf in each view, and one more for each page;
// `None` where there is no number for them.
fn most_pieces(records: &Records, pages: u64) -> Option<u64>
    ensures { IfSome result (λ most. most ≡ pages * (length records.now.views.views + 1)) }
{
    let views = records.views.len() as u64;
    pages.checked_mul(views.checked_add(1)?)
}

// An empty plan with room for an unmap of so many pages.
fn prepare_unmap(alloc: Global, records: &Records, va: u64, pages: u64) -> Result<Plan, Memory>
    requires { CanDo records.now (Job.Unmap va pages) }
    ensures empty { IfOk result IsEmpty }
    ensures room { IfOk result (HasRoomFor records.now (Job.Unmap va pages)) }
{
    match most_pieces(records, pages) {
        Some(pieces) => plan_with(alloc, pieces, pages),
        None => Err(Memory),
    }
}

// An empty plan with room for a page that a generation meets, for which there is room in the view
// too.
fn prepare_sync(
    alloc: Global,
    records: &mut Records,
    generation: u32,
    page: u32,
) -> Result<Plan, Memory>
    requires { CanDo records.old (Job.Sync generation page) }
    ensures empty { IfOk result IsEmpty }
    ensures room { IfOk result (HasRoomFor records.new (Job.Sync generation page)) }
    ensures made { OnOk result
        (records.new ≡ with_room_for records.old (Job.Sync generation page)) }
    ensures err { OnErr result (records.new ≡ records.old) }
{
    let plan = plan_with(alloc, 1, 1)?;
    records.views.reserve_met(generation, 1)?;
    Ok(plan)
}

/// An empty plan with room for a job, for which there is room in the records too. It takes all the
/// memory of the job, and changes nothing else.
///
/// # Errors
///
/// `Memory` where it runs out; the records are as they were.
pub fn prepare(alloc: Global, records: &mut Records, job: Job) -> Result<Plan, Memory>
    requires { CanDo records.old job }
    ensures empty { IfOk result IsEmpty }
    ensures room { IfOk result (HasRoomFor records.new job) }
    ensures made { OnOk result (records.new ≡ with_room_for records.old job) }
    ensures err { OnErr result (records.new ≡ records.old) }
{
    match job {
        Job::Unmap { va, pages } => prepare_unmap(alloc, records, va, pages),
        Job::Sync { generation, page } => prepare_sync(alloc, records, generation, page),
    }
}

// The plan of a generation that meets a page: the page's leaf is stored in its node.
fn plan_sync(records: &Records, plan: &mut Plan, generation: u32, page: u32)
    requires can { CanDo records.now (Job.Sync generation page) }
    requires room { HasRoomFor records.now (Job.Sync generation page) plan.old }
    requires empty { IsEmpty plan.old }
    ensures { IsPlanOf records.now (Job.Sync generation page) plan.new }
{
    let Some(met) = records.pages.find(page) else {
        unreachable!();
    };
    let Some(view) = records.views.find(generation) else {
        unreachable!();
    };
    let Some(node) = node_for(view, page) else {
        unreachable!();
    };
    plan.pieces.push(Piece::Pte {
        at: leaf_place(records.limits.frames, node, met.page),
        value: leaf_for(met),
    });
    plan.changes.push(Change::Met { generation, page });
}

// The plan of an unmap: leaves are cleared, and then the pages leave.
fn plan_unmap(records: &Records, plan: &mut Plan, va: u64, pages: u64)
    requires can { CanDo records.now (Job.Unmap va pages) }
    requires room { HasRoomFor records.now (Job.Unmap va pages) plan.old }
    requires empty { IsEmpty plan.old }
    ensures { IsPlanOf records.now (Job.Unmap va pages) plan.new }
{
    let first = (va / PAGE_SIZE) as u32;
    clear_pages(&mut plan.pieces, records, first, pages);
    leave_pages(&mut plan.pieces, first, pages);
    set_going(&mut plan.changes, first, pages);
}

// What an unmap is refused for.
fn unmap_refusal(records: &Records, va: u64, pages: u64) -> Option<Refusal>
    requires { CanDo records.now (Job.Unmap va pages) }
    ensures { result ≡ refusal_in records.now (Job.Unmap va pages) }
{
    let first = (va / PAGE_SIZE) as u32;
    if let Some(page) = first_absent(records, first, pages) {
        return Some(Refusal::Absent { page });
    }
    let page = first_leaving(records, first, pages)?;
    Some(Refusal::Leaving { page })
}

/// The plan of a job is made, in one that is empty and has room for it. It takes no memory.
///
/// # Errors
///
/// The first refusal of the job that applies; nothing is in the plan then.
pub fn fill(records: &Records, plan: &mut Plan, job: Job) -> Result<(), Refusal>
    requires can { CanDo records.now job }
    requires room { HasRoomFor records.now job plan.old }
    requires empty { IsEmpty plan.old }
    ensures planned { OnOk result (IsPlanOf records.now job plan.new) }
    ensures refused { MatchResult result (λ _. refusal_in records.now job ≡ None)
        (λ reason. refusal_in records.now job ≡ Some reason) }
    ensures empty { OnErr result (IsEmpty plan.new) }
{
    match job {
        Job::Unmap { va, pages } => match unmap_refusal(records, va, pages) {
            Some(reason) => Err(reason),
            None => {
                plan_unmap(records, plan, va, pages);
                Ok(())
            }
        },
        Job::Sync { generation, page } => {
            plan_sync(records, plan, generation, page);
            Ok(())
        }
    }
}
