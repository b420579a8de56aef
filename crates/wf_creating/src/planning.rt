//! Births of generations: room for the plan, and the plan.
ghost use Rattle.std.specs.Prelude.{◌≡◌, ◌≤◌, ◌+◌, ◌++◌, [], ◌∷◌, None, Some, IfOk, MatchResult, OnOk, length, map};
ghost use Rattle.wf_views.specs.declared.plan.Change.TheVariants.{Born};
ghost use Rattle.wf_mapping.specs.Plans.{node_marked};
ghost use Rattle.wf_space.specs.Jobs.{IsEmpty, all_pushed};
ghost use Rattle.wf_creating.specs.Plans.{IsBirthPlan, table_filled, text_marked, texts_copied};
ghost use Rattle.wf_creating.specs.Refusals.{IsBirthFault, birth_refusal};
ghost use Rattle.wf_creating.specs.Room.{DifferInBirthRoom, HasBirthRoom, IsRoomForBirth, with_birth_room};

use crate::filling::{copy_texts, fill_table, mark_texts};
use crate::parents::parent_text;
use crate::refusing::create_refusal;
use crate::{Birth, BirthRoom, lay_out_birth};
use std::alloc::Global;
use wf_mapping::{Blanks, NewNode, mark_nodes, plan_with};
use wf_outside::{Memory, Refusal};
use wf_space::SpaceFault;
use wf_views::{Change, Piece, Plan, Records, Roomy, TextAt, View};

// Room in the records for one more view, and for its entry.
fn reserve_birth(records: &mut Records) -> Result<(), Memory>
    ensures made { OnOk result (records.new ≡ with_birth_room records.old) }
    ensures alike { DifferInBirthRoom records.old records.new }
{
    records.views.reserve(1)?;
    records.born.reserve(1)
}

// An empty plan with room for so many pages of text and nodes.
fn plan_for_birth(alloc: Global, pages: u64, nodes: u64) -> Result<Plan, Memory>
    ensures empty { IfOk result IsEmpty }
    ensures room { IfOk result (HasBirthRoom pages nodes) }
{
    let Some(pieces) = pages.checked_add(nodes) else {
        return Err(Memory);
    };
    let Some(changes) = pieces.checked_add(1) else {
        return Err(Memory);
    };
    plan_with(alloc, pieces, changes)
}

// Room for a layout.
fn room_for_birth(alloc: Global, birth: Birth) -> Result<BirthRoom, Memory>
    ensures birth { IfOk result (λ room. room.birth ≡ birth) }
    ensures empty { IfOk result (λ room. IsEmpty room.plan) }
    ensures plan { IfOk result
        (λ room. HasBirthRoom (length birth.view.text) (length birth.nodes) room.plan) }
    ensures blanks { IfOk result (λ room. room.blanks ≡ length birth.nodes) }
{
    let pages = birth.view.text.len() as u64;
    let nodes = birth.nodes.as_slice().len() as u64;
    let plan = plan_for_birth(alloc, pages, nodes)?;
    let blanks = Blanks::new(alloc, nodes)?;
    Ok(BirthRoom {
        birth,
        plan,
        blanks,
    })
}

/// What is made for a birth before its plan, and room for it in the records. It takes all the
/// memory of the birth, and changes nothing else.
///
/// # Errors
///
/// `Memory` where it runs out; the records may have more room then.
pub fn prepare_create(
    alloc: Global,
    records: &mut Records,
    parent: u32,
) -> Result<BirthRoom, Memory>
    ensures room { IfOk result (IsRoomForBirth records.new parent) }
    ensures made { OnOk result (records.new ≡ with_birth_room records.old) }
    ensures alike { DifferInBirthRoom records.old records.new }
{
    reserve_birth(records)?;
    let birth = lay_out_birth(alloc, records, parent)?;
    room_for_birth(alloc, birth)
}

// The pieces of a generation that is born, whose text is that of its parent.
fn plan_pieces(
    alloc: Global,
    pieces: &mut Roomy<Piece>,
    blanks: &mut Blanks,
    texts: &[TextAt],
    nodes: &[NewNode],
    text: &[TextAt],
)
    requires few { length text.now ≤ length texts.now }
    requires room { length text.now + length nodes.now ≤ pieces.old.room }
    requires blanks { length nodes.now ≤ blanks.old }
    ensures { pieces.new ≡ all_pushed
        (texts_copied [] texts.now text.now ++ map (table_filled nodes.now text.now) nodes.now)
        pieces.old }
{
    copy_texts(alloc, pieces, texts, text);
    fill_table(pieces, blanks, nodes, text);
}

// The changes of a generation that is born.
fn plan_changes(changes: &mut Roomy<Change>, nodes: &[NewNode], view: View)
    requires { length view.text + length nodes.now + 1 ≤ changes.old.room }
    ensures { changes.new ≡ all_pushed
        (map text_marked view.text ++ map node_marked nodes.now ++ Born view ∷ []) changes.old }
{
    mark_texts(changes, &view.text);
    mark_nodes(changes, nodes);
    changes.push(Change::Born { view });
}

/// The plan of a birth, in the room that was made for it. It takes no memory.
///
/// # Errors
///
/// The first refusal that applies.
pub fn fill_create(
    alloc: Global,
    records: &Records,
    room: BirthRoom,
    parent: u32,
) -> Result<Plan, Refusal>
    requires { IsRoomForBirth records.now parent room }
    ensures planned { IfOk result (IsBirthPlan records.now parent) }
    ensures refused { MatchResult result (λ _. birth_refusal records.now parent ≡ None)
        (λ reason. birth_refusal records.now parent ≡ Some reason) }
{
    let BirthRoom {
        birth,
        mut plan,
        mut blanks,
    } = room;
    let Birth { need, nodes, view } = birth;
    if let Some(reason) = create_refusal(records, parent, need) {
        return Err(reason);
    }
    let nodes = nodes.as_slice();
    let texts = parent_text(records, parent);
    plan_pieces(
        alloc,
        &mut plan.pieces,
        &mut blanks,
        texts,
        nodes,
        &view.text,
    );
    plan_changes(&mut plan.changes, nodes, view);
    Ok(plan)
}

/// The plan of a birth. Nothing is done yet, but that there may be more room in the records.
///
/// # Errors
///
/// `Refused` with the first refusal that applies, and `Memory` where it runs out.
pub fn plan_create(alloc: Global, records: &mut Records, parent: u32) -> Result<Plan, SpaceFault>
    ensures plan { IfOk result (IsBirthPlan records.new parent) }
    ensures room { OnOk result (records.new ≡ with_birth_room records.old) }
    ensures fault { MatchResult result (λ _. birth_refusal records.new parent ≡ None)
        (IsBirthFault records.new parent) }
    ensures alike { DifferInBirthRoom records.old records.new }
{
    let room = prepare_create(alloc, records, parent)?;
    let plan = fill_create(alloc, records, room, parent)?;
    Ok(plan)
}
