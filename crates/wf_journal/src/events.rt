//! The entry that a line is the text of.
ghost use Rattle.std.specs.Prelude.{◌≡◌, option_map};
ghost use Rattle.wf_journal.specs.Fields.{word_at, field, ended, one, two, three, four};
ghost use Rattle.wf_journal.specs.Events.{try_of, wait_of, step_of, gone_of, change_of, views_of, reason_of, refused_of, event_of, there, entry_of};

use crate::words::{
    access, actor_of, birth, cause_and_value, ended, exchange, generation_and_page, mapping,
    next_page, one_actor, one_byte, one_decimal8, one_decimal32, one_decimal64, one_hex32,
    one_hex64, page_and_count, pc_and_word, two_decimals, word_at,
};
use wf_flat::{Actor, Entry, Event, WaitFor};
use wf_outside::Refusal;
use wf_text::split_word;

// A hart's event in a try.
#[tactic(auto, unfolding(crate::specs::Events::try_of))]
fn try_of(name: &[u8], rest: &[u8]) -> Option<Event>
    ensures { result ≡ try_of name.now rest.now }
{
    if name == b"fetch".as_slice() {
        let (pc, word) = pc_and_word(rest)?;
        return Some(Event::Fetch { pc, word });
    }
    if name == b"end".as_slice() {
        return Some(Event::End {
            pc: one_hex64(rest)?,
        });
    }
    if name == b"look".as_slice() {
        let (va, width, value) = access(rest)?;
        return Some(Event::Look { va, width, value });
    }
    if name == b"put".as_slice() {
        let (va, width, value) = access(rest)?;
        return Some(Event::Put { va, width, value });
    }
    if name == b"take".as_slice() {
        return Some(Event::Take {
            page: one_hex32(rest)?,
        });
    }
    if name == b"swap".as_slice() {
        let (va, width, old, new) = exchange(rest)?;
        return Some(Event::Swap {
            va,
            width,
            old,
            new,
        });
    }
    if name == b"miss".as_slice() {
        return Some(Event::Miss {
            va: one_hex64(rest)?,
        });
    }
    None
}

// What a try waits for.
#[tactic(auto, unfolding(crate::specs::Events::wait_of))]
fn wait_of(what: &[u8], rest: &[u8]) -> Option<Event>
    ensures { result ≡ wait_of what.now rest.now }
{
    if what == b"page".as_slice() {
        let page = one_hex32(rest)?;
        return Some(Event::Wait {
            on: WaitFor::Page { page },
        });
    }
    if what == b"kernel".as_slice() {
        let actor = one_actor(rest)?;
        return Some(Event::Wait {
            on: WaitFor::Kernel { actor },
        });
    }
    None
}

// How a try ends, or a call.
#[tactic(auto, unfolding(crate::specs::Events::step_of))]
fn step_of(name: &[u8], rest: &[u8]) -> Option<Event>
    ensures { result ≡ step_of name.now rest.now }
{
    if name == b"enter".as_slice() {
        return ended(rest, Event::Enter);
    }
    if name == b"sync".as_slice() {
        let (generation, page) = generation_and_page(rest)?;
        return Some(Event::Sync { generation, page });
    }
    if name == b"again".as_slice() {
        return Some(Event::Again {
            page: one_hex32(rest)?,
        });
    }
    if name == b"wait".as_slice() {
        let (what, rest) = word_at(rest)?;
        return wait_of(what, rest);
    }
    if name == b"trap".as_slice() {
        let (cause, value) = cause_and_value(rest)?;
        return Some(Event::Trap { cause, value });
    }
    if name == b"exit".as_slice() {
        return Some(Event::Exit {
            code: one_decimal64(rest)?,
        });
    }
    if name == b"out".as_slice() {
        return Some(Event::Out {
            byte: one_byte(rest)?,
        });
    }
    if name == b"idle".as_slice() {
        return ended(rest, Event::Idle);
    }
    None
}

// A page that has left.
#[tactic(auto, unfolding(crate::specs::Events::gone_of))]
fn gone_of(rest: &[u8]) -> Option<Event>
    ensures { result ≡ gone_of rest.now }
{
    let (page, rest) = next_page(rest)?;
    if rest.is_empty() {
        return Some(Event::Gone { page, worn: false });
    }
    let (word, rest) = word_at(rest)?;
    if word == b"worn".as_slice() {
        return ended(rest, Event::Gone { page, worn: true });
    }
    None
}

// A change of pages or of generations.
#[tactic(auto, unfolding(crate::specs::Events::change_of))]
fn change_of(name: &[u8], rest: &[u8]) -> Option<Event>
    ensures { result ≡ change_of name.now rest.now }
{
    if name == b"map".as_slice() {
        let (page, n, write, patch) = mapping(rest)?;
        return Some(Event::Map {
            page,
            n,
            write,
            patch,
        });
    }
    if name == b"going".as_slice() {
        let (page, n) = page_and_count(rest)?;
        return Some(Event::Going { page, n });
    }
    if name == b"ending".as_slice() {
        return Some(Event::Ending {
            page: one_hex32(rest)?,
        });
    }
    if name == b"gone".as_slice() {
        return gone_of(rest);
    }
    if name == b"born".as_slice() {
        let (generation, parent, patch) = birth(rest)?;
        return Some(Event::Born {
            generation,
            parent,
            patch,
        });
    }
    if name == b"move".as_slice() {
        return Some(Event::Move {
            generation: one_decimal32(rest)?,
        });
    }
    if name == b"dead".as_slice() {
        return Some(Event::Dead {
            generation: one_decimal32(rest)?,
        });
    }
    None
}

// The only number of births that `views` tells.
#[tactic(auto, unfolding(crate::specs::Fields::one, crate::specs::Fields::field))]
fn views_at(rest: &[u8]) -> Option<Refusal>
    ensures { result ≡ one views_of rest.now }
{
    let (word, rest) = word_at(rest)?;
    if word == b"1024".as_slice() {
        return ended(rest, Refusal::Views);
    }
    None
}

// Why a call was refused.
#[tactic(auto, unfolding(crate::specs::Events::reason_of))]
fn reason_of(name: &[u8], rest: &[u8]) -> Option<Refusal>
    ensures { result ≡ reason_of name.now rest.now }
{
    if name == b"argument".as_slice() {
        return ended(rest, Refusal::Argument);
    }
    if name == b"overlap".as_slice() {
        return Some(Refusal::Overlap {
            page: one_hex32(rest)?,
        });
    }
    if name == b"absent".as_slice() {
        return Some(Refusal::Absent {
            page: one_hex32(rest)?,
        });
    }
    if name == b"leaving".as_slice() {
        return Some(Refusal::Leaving {
            page: one_hex32(rest)?,
        });
    }
    if name == b"noframes".as_slice() {
        let (need, free) = two_decimals(rest)?;
        return Some(Refusal::NoFrames { need, free });
    }
    if name == b"noview".as_slice() {
        return Some(Refusal::NoView {
            generation: one_decimal64(rest)?,
        });
    }
    if name == b"notempty".as_slice() {
        return Some(Refusal::NotEmpty {
            hart: one_decimal8(rest)?,
        });
    }
    if name == b"inside".as_slice() {
        return Some(Refusal::Inside {
            at: one_hex64(rest)?,
        });
    }
    if name == b"views".as_slice() {
        return views_at(rest);
    }
    if name == b"number".as_slice() {
        return Some(Refusal::Number {
            n: one_decimal64(rest)?,
        });
    }
    if name == b"lacks".as_slice() {
        return Some(Refusal::Lacks {
            n: one_decimal64(rest)?,
        });
    }
    None
}

// A refusal.
fn refused_of(name: &[u8], rest: &[u8]) -> Option<Event>
    ensures { result ≡ refused_of name.now rest.now }
{
    if name != b"refused".as_slice() {
        return None;
    }
    let (why, rest) = word_at(rest)?;
    Some(Event::Refused {
        reason: reason_of(why, rest)?,
    })
}

// An event.
#[tactic(auto, unfolding(crate::specs::Events::event_of))]
fn event_of(name: &[u8], rest: &[u8]) -> Option<Event>
    ensures { result ≡ event_of name.now rest.now }
{
    if let Some(event) = try_of(name, rest) {
        return Some(event);
    }
    if let Some(event) = step_of(name, rest) {
        return Some(event);
    }
    if let Some(event) = change_of(name, rest) {
        return Some(event);
    }
    refused_of(name, rest)
}

// An actor of a run with so many harts.
fn there(actor: Actor, harts: u8) -> Option<Actor>
    ensures { result ≡ there harts actor }
{
    match actor {
        Actor::Hart(h) => {
            if h < harts {
                return Some(actor);
            }
            None
        }
        Actor::Kernel => Some(actor),
    }
}

/// The entry of a line, in a run with so many harts.
#[tactic(auto, unfolding(crate::specs::Events::entry_of))]
pub fn entry_of(line: &[u8], harts: u8) -> Option<Entry>
    ensures { result ≡ entry_of harts line.now }
{
    let (word, rest) = split_word(line);
    let actor = there(actor_of(word)?, harts)?;
    let (name, rest) = word_at(rest)?;
    let event = event_of(name, rest)?;
    Some(Entry { actor, event })
}
