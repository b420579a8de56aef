//! The text of a journal's entry.
ghost use Rattle.std.specs.Prelude.{◌≡◌, ◌++◌, OnOk, IfOk};
ghost use Rattle.wf_journal.specs.Entries.{access_text, range_text, fetch_text, swap_text, map_text, born_text, frames_refusal, wait_text, refusal_text, event_text, entry_bytes};
ghost use Rattle.wf_journal.specs.Headers.{line};
ghost use Rattle.wf_flat.specs.declared.event.Event.TheVariants.{Gone, Out};

use crate::fields::{
    name_actor, name_decimal, name_decimal_hex, name_hex, push_actor, push_patch, push_right,
    spaced_decimal, spaced_hex, spaced_last_hex,
};
use std::alloc::Global;
use wf_flat::{Entry, Event, WaitFor};
use wf_outside::{Memory, Refusal, Text};

// An access: its address, its width and its value.
fn push_access(out: &mut Vec<u8>, name: &[u8], va: u64, width: u8, value: u64) -> Result<(), Memory>
    ensures { OnOk result (out.new.items ≡ out.old.items ++ access_text name.now va width value) }
{
    out.extend_from_slice(name)?;
    spaced_hex(out, va)?;
    spaced_decimal(out, u64::from(width))?;
    spaced_hex(out, value)
}

// Pages from one on: where they begin and how many they are.
fn push_range(out: &mut Vec<u8>, name: &[u8], page: u32, n: u64) -> Result<(), Memory>
    ensures { OnOk result (out.new.items ≡ out.old.items ++ range_text name.now page n) }
{
    out.extend_from_slice(name)?;
    spaced_hex(out, u64::from(page))?;
    spaced_decimal(out, n)
}

// A fetch: the pc and the word.
fn push_fetch(out: &mut Vec<u8>, pc: u64, word: u32) -> Result<(), Memory>
    ensures { OnOk result (out.new.items ≡ out.old.items ++ fetch_text pc word) }
{
    out.extend_from_slice(b"fetch")?;
    spaced_hex(out, pc)?;
    spaced_last_hex(out, 8, u64::from(word))
}

// A byte that was put.
#[tactic(auto, unfolding(crate::specs::Entries::event_text))]
fn push_out(out: &mut Vec<u8>, byte: u8) -> Result<(), Memory>
    ensures { OnOk result (out.new.items ≡ out.old.items ++ event_text (Out byte)) }
{
    out.extend_from_slice(b"out")?;
    spaced_last_hex(out, 2, u64::from(byte))
}

// Pages that were mapped, with their right and the patch that they are of.
fn push_map(
    out: &mut Vec<u8>,
    page: u32,
    n: u64,
    write: bool,
    patch: Option<u32>,
) -> Result<(), Memory>
    ensures { OnOk result (out.new.items ≡ out.old.items ++ map_text page n write patch) }
{
    push_range(out, b"map", page, n)?;
    out.push(b' ')?;
    push_right(out, write)?;
    out.push(b' ')?;
    push_patch(out, b"z", patch)
}

// A generation that was made, of its parent and a patch.
fn push_born(
    out: &mut Vec<u8>,
    generation: u32,
    parent: u32,
    patch: Option<u32>,
) -> Result<(), Memory>
    ensures { OnOk result (out.new.items ≡ out.old.items ++ born_text generation parent patch) }
{
    name_decimal(out, b"born", u64::from(generation))?;
    spaced_decimal(out, u64::from(parent))?;
    out.push(b' ')?;
    push_patch(out, b"-", patch)
}

// A page that has left.
#[tactic(auto, unfolding(crate::specs::Entries::event_text))]
fn push_gone(out: &mut Vec<u8>, page: u32, worn: bool) -> Result<(), Memory>
    ensures { OnOk result (out.new.items ≡ out.old.items ++ event_text (Gone page worn)) }
{
    name_hex(out, b"gone", u64::from(page))?;
    if worn {
        out.extend_from_slice(b" worn")?;
    }
    Ok(())
}

// What a try waits for.
#[tactic(auto, unfolding(crate::specs::Entries::wait_text))]
fn push_wait(out: &mut Vec<u8>, on: WaitFor) -> Result<(), Memory>
    ensures { OnOk result (out.new.items ≡ out.old.items ++ wait_text on) }
{
    match on {
        WaitFor::Page { page } => name_hex(out, b"wait page", u64::from(page)),
        WaitFor::Kernel { actor } => name_actor(out, b"wait kernel", actor),
    }
}

// Too few frames: how many are needed, and how many are free.
fn push_frames(out: &mut Vec<u8>, need: u64, free: u64) -> Result<(), Memory>
    ensures { OnOk result (out.new.items ≡ out.old.items ++ frames_refusal need free) }
{
    name_decimal(out, b"refused noframes", need)?;
    spaced_decimal(out, free)
}

// Why a call was refused.
#[tactic(auto, unfolding(crate::specs::Entries::refusal_text))]
fn push_refusal(out: &mut Vec<u8>, reason: Refusal) -> Result<(), Memory>
    ensures { OnOk result (out.new.items ≡ out.old.items ++ refusal_text reason) }
{
    match reason {
        Refusal::Argument => push_name(out, b"refused argument"),
        Refusal::Overlap { page } => name_hex(out, b"refused overlap", u64::from(page)),
        Refusal::Absent { page } => name_hex(out, b"refused absent", u64::from(page)),
        Refusal::Leaving { page } => name_hex(out, b"refused leaving", u64::from(page)),
        Refusal::NoFrames { need, free } => push_frames(out, need, free),
        Refusal::NoView { generation } => name_decimal(out, b"refused noview", generation),
        Refusal::NotEmpty { hart } => name_decimal(out, b"refused notempty", u64::from(hart)),
        Refusal::Inside { at } => name_hex(out, b"refused inside", at),
        Refusal::Views => push_name(out, b"refused views 1024"),
        Refusal::Number { n } => name_decimal(out, b"refused number", n),
        Refusal::Lacks { n } => name_decimal(out, b"refused lacks", n),
    }
}

// An exchange: its address and width, and both values.
fn push_swap(out: &mut Vec<u8>, va: u64, width: u8, old: u64, new: u64) -> Result<(), Memory>
    ensures { OnOk result (out.new.items ≡ out.old.items ++ swap_text va width old new) }
{
    push_access(out, b"swap", va, width, old)?;
    spaced_hex(out, new)
}

// A name alone.
fn push_name(out: &mut Vec<u8>, name: &[u8]) -> Result<(), Memory>
    ensures { OnOk result (out.new.items ≡ out.old.items ++ name.now) }
{
    out.extend_from_slice(name)?;
    Ok(())
}

// What happened, with its values.
#[tactic(auto, unfolding(crate::specs::Entries::event_text))]
fn push_event(out: &mut Vec<u8>, event: Event) -> Result<(), Memory>
    ensures { OnOk result (out.new.items ≡ out.old.items ++ event_text event) }
{
    match event {
        Event::Fetch { pc, word } => push_fetch(out, pc, word),
        Event::Look { va, width, value } => push_access(out, b"look", va, width, value),
        Event::Take { page } => name_hex(out, b"take", u64::from(page)),
        Event::Put { va, width, value } => push_access(out, b"put", va, width, value),
        Event::Swap {
            va,
            width,
            old,
            new,
        } => push_swap(out, va, width, old, new),
        Event::Miss { va } => name_hex(out, b"miss", va),
        Event::End { pc } => name_hex(out, b"end", pc),
        Event::Again { page } => name_hex(out, b"again", u64::from(page)),
        Event::Wait { on } => push_wait(out, on),
        Event::Enter => push_name(out, b"enter"),
        Event::Sync { generation, page } => {
            name_decimal_hex(out, b"sync", u64::from(generation), u64::from(page))
        }
        Event::Trap { cause, value } => name_decimal_hex(out, b"trap", u64::from(cause), value),
        Event::Exit { code } => name_decimal(out, b"exit", code),
        Event::Out { byte } => push_out(out, byte),
        Event::Idle => push_name(out, b"idle"),
        Event::Map {
            page,
            n,
            write,
            patch,
        } => push_map(out, page, n, write, patch),
        Event::Going { page, n } => push_range(out, b"going", page, n),
        Event::Ending { page } => name_hex(out, b"ending", u64::from(page)),
        Event::Gone { page, worn } => push_gone(out, page, worn),
        Event::Born {
            generation,
            parent,
            patch,
        } => push_born(out, generation, parent, patch),
        Event::Move { generation } => name_decimal(out, b"move", u64::from(generation)),
        Event::Dead { generation } => name_decimal(out, b"dead", u64::from(generation)),
        Event::Refused { reason } => push_refusal(out, reason),
    }
}

// The text of an entry.
fn push_text(out: &mut Vec<u8>, entry: &Entry) -> Result<(), Memory>
    ensures { OnOk result (out.new.items ≡ out.old.items ++ entry_bytes entry.now) }
{
    push_actor(out, entry.actor)?;
    out.push(b' ')?;
    push_event(out, entry.event)
}

/// Appends the line of an entry, with its newline.
pub fn push_entry(out: &mut Vec<u8>, entry: &Entry) -> Result<(), Memory>
    ensures { OnOk result (out.new.items ≡ out.old.items ++ line (entry_bytes entry.now)) }
{
    push_text(out, entry)?;
    out.push(b'\n')?;
    Ok(())
}

/// The line of an entry, without its newline: the actor, a space, and the event.
pub fn entry_text(alloc: Global, entry: &Entry) -> Result<Text, Memory>
    ensures { IfOk result (λ text. text ≡ entry_bytes entry.now) }
{
    let mut out = Vec::new(alloc);
    push_text(&mut out, entry)?;
    Ok(Text::from(out))
}
