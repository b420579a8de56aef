//! Changes of the records.
ghost use Rattle.std.specs.Prelude.{◌≡◌};
ghost use Rattle.wf_space.specs.Changes.{CanBeGiven, MayChange, MayNote, all_given, node_frames, text_frames, with_change, with_changes};

use wf_frames::Frames;
use wf_views::{BornAt, Change, NodeAt, Plan, Records, TextAt, View};

// A free frame is taken, and is in its next incarnation where it is to be data.
fn mark(records: &mut Records, frame: u32, raise: bool)
    requires { MayChange records.old (Change.Mark frame raise) }
    ensures { records.new ≡ with_change records.old (Change.Mark frame raise) }
{
    records.frames.mark(frame);
    if raise {
        records.frames.raise(frame);
    }
}

// A view is added, with its entry of the generations that were born.
fn add_view(records: &mut Records, view: View)
    requires { MayChange records.old (Change.Born view) }
    ensures { records.new ≡ with_change records.old (Change.Born view) }
{
    records.born.push(BornAt {
        parent: view.parent,
        patches: view.patches,
    });
    records.views.add(view).unwrap();
}

// A hart moves from the view of one generation to that of another.
fn move_hart(records: &mut Records, hart: u8, old: u32, new: u32)
    requires { MayChange records.old (Change.Move hart old new) }
    ensures { records.new ≡ with_change records.old (Change.Move hart old new) }
{
    records.views.admit(new, hart).unwrap();
    records.views.release(old, hart);
}

// The frames of pages of text are given back.
fn give_text(frames: &mut Frames, text: &[TextAt])
    requires { CanBeGiven frames.old (text_frames text.now) }
    ensures { frames.new ≡ all_given frames.old (text_frames text.now) }
{
    for page in text {
        frames.give(page.frame);
    }
}

// The frames of nodes are given back.
fn give_nodes(frames: &mut Frames, nodes: &[NodeAt])
    requires { CanBeGiven frames.old (node_frames nodes.now) }
    ensures { frames.new ≡ all_given frames.old (node_frames nodes.now) }
{
    for node in nodes {
        frames.give(node.frame);
    }
}

// The view of a generation is taken out, and its frames are given back.
fn remove_view(records: &mut Records, generation: u32)
    requires { MayChange records.old (Change.Dead generation) }
    ensures { records.new ≡ with_change records.old (Change.Dead generation) }
{
    let Some(view) = records.views.remove(generation) else {
        unreachable!();
    };
    give_text(&mut records.frames, &view.text);
    give_nodes(&mut records.frames, view.nodes.as_slice());
}

/// One change of the records is made. What it names is there, or isn't there yet, and there is room
/// for what is new.
pub fn make_change(records: &mut Records, change: Change)
    requires { MayChange records.old change }
    ensures { records.new ≡ with_change records.old change }
{
    match change {
        Change::Mark { frame, raise } => mark(records, frame, raise),
        Change::Page { page } => records.pages.add(page),
        Change::Going { page } => records.pages.set_going(page),
        Change::Node { generation, node } => records.views.add_node(generation, node),
        Change::Reach { generation, place } => records.views.add_reach(generation, place),
        Change::Met { generation, page } => records.views.add_met(generation, page),
        Change::Birth { n } => records.births += n,
        Change::Born { view } => add_view(records, view),
        Change::Move { hart, from, to } => move_hart(records, hart, from, to),
        Change::Dead { generation } => remove_view(records, generation),
    }
}

// Changes are made in their order.
pub(crate) fn note_all(records: &mut Records, changes: Vec<Change>)
    requires { MayNote records.old changes.items }
    ensures { records.new ≡ with_changes records.old changes.items }
{
    for change in changes {
        make_change(records, change);
    }
}

/// The changes of a plan are made in their order.
pub fn note(records: &mut Records, plan: Plan)
    requires { MayNote records.old plan.changes.items }
    ensures { records.new ≡ with_changes records.old plan.changes.items }
{
    let Plan { pieces: _, changes } = plan;
    note_all(records, changes.into_vec());
}
