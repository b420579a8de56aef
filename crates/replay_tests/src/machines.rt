//! The start of one hart, and what it does up to its call.
ghost use Rattle.std.specs.Prelude.{◌≡◌, ◌<◌, ◌≤◌, ◌^◌, [], IfOk, length};
ghost use Rattle.std.specs.List.{AllByRecursion};
ghost use Rattle.wf_outside.specs.declared.sizes.TheConstants.{MOST_BIRTHS, PAGE_WORDS};
ghost use Rattle.wf_outside.specs.Pages.{IsPage};
ghost use Rattle.wf_legal.specs.Legal.{at_rest};
ghost use Rattle.wf_sound.specs.Sound.{IsDelta, IsSound};

use std::alloc::Global;
use std::test::Fail;
use wf_flat::{Actor, Entry, Event, Flat, boot};
use wf_outside::{Delta, Image, LEAST_FRAMES, Limits, Memory, PAGE_WORDS, Page};
use wf_sound::starts_are_sound;

// The words of a page: this code, and zeros behind it.
fn page_words(alloc: Global, code: &[u32]) -> Result<Vec<u64>, Memory>
    requires { length code.now ≤ 1024 }
    ensures { IfOk result (λ words. length words.items ≡ PAGE_WORDS) }
{
    let mut words = vec![in alloc; 0; PAGE_WORDS]?;
    for (i, instruction) in code.iter().enumerate() {
        words[i / 2] |= (*instruction as u64) << (32 * (i % 2));
    }
    Ok(words)
}

// One page of text, with this code from 0x10000 on.
fn image(alloc: Global, code: &[u32]) -> Result<Image, Memory>
    requires { length code.now ≤ 1024 }
    ensures text { IfOk result
        (λ image. AllByRecursion (λ page. IsPage page.number page.words) image.text) }
    ensures pages { IfOk result (λ image. image.pages ≡ []) }
{
    let mut text = Vec::new(alloc);
    text.push(Page {
        number: 0x10,
        words: page_words(alloc, code)?,
    })?;
    Ok(Image {
        text,
        pages: Vec::new(alloc),
        entry: 0x1_0000,
        names: Vec::new(alloc),
        end: 0x11,
    })
}

// The start of one hart of an image, where a frame has so many births.
fn start_of(alloc: Global, image: &Image, last_birth: u64, deltas: &[Delta]) -> Result<Flat, Fail>
    requires text { AllByRecursion (λ page. IsPage page.number page.words) image.now.text }
    requires pages { image.now.pages ≡ [] }
    requires some_birth { 1 ≤ last_birth }
    requires all_births { last_birth ≤ MOST_BIRTHS }
    requires patches { AllByRecursion IsDelta deltas.now }
    requires few { length deltas.now < 2 ^ 32 }
    ensures { IfOk result (λ flat. IsSound (at_rest deltas.now flat)) }
{
    starts_are_sound();
    let _text = &image.text;
    let limits = Limits {
        frames: LEAST_FRAMES,
        last_writes: 1,
        last_birth,
    };
    Ok(boot(alloc, image, 1, limits)?)
}

/// The start of one hart with this code from 0x10000 on, where a frame has so many births, of a run
/// with these patches.
pub fn start(alloc: Global, code: &[u32], last_birth: u64, deltas: &[Delta]) -> Result<Flat, Fail>
    requires short { length code.now ≤ 1024 }
    requires some_birth { 1 ≤ last_birth }
    requires all_births { last_birth ≤ MOST_BIRTHS }
    requires patches { AllByRecursion IsDelta deltas.now }
    requires few { length deltas.now < 2 ^ 32 }
    ensures { IfOk result (λ flat. IsSound (at_rest deltas.now flat)) }
{
    start_of(alloc, &image(alloc, code)?, last_birth, deltas)
}

/// What hart 0 does: it runs this code from 0x10000 on, one instruction after the other, and enters
/// the kernel for the call at its end.
pub fn push_call(journal: &mut Vec<Entry>, code: &[u32]) -> Result<(), Memory>
    requires { length code.now ≤ 1024 }
{
    let actor = Actor::Hart(0);
    for (i, instruction) in code.iter().enumerate() {
        let pc = 0x1_0000 + 4 * i as u64;
        let event = Event::Fetch {
            pc,
            word: *instruction,
        };
        journal.push(Entry { actor, event })?;
        let event = Event::End { pc: pc + 4 };
        journal.push(Entry { actor, event })?;
    }
    journal.pop();
    let event = Event::Enter;
    journal.push(Entry { actor, event })?;
    Ok(())
}
