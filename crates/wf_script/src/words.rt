//! What a word of a script's line may be.
ghost use Rattle.std.specs.Prelude.{◌≡◌};
ghost use Rattle.wf_script.specs.Words.{verb_of, begun_of, hart_of, actor_of, count_of, generation_of, address_of};

use wf_flat::Actor;
use wf_text::{any_hex_of, decimal_of};

/// The first word of a command.
#[derive(Clone, Copy, Debug, PartialEq, Eq)]
pub enum Verb {
    Step,
    Tick,
    Run,
    Patch,
    Begin,
    Create,
    Delete,
    Tables,
    Regs,
    Mem,
}

/// The verb of this text.
#[tactic(auto, unfolding(crate::specs::Words::verb_of))]
pub fn verb_of(word: &[u8]) -> Option<Verb>
    ensures { result ≡ verb_of word.now }
{
    if word == b"step".as_slice() {
        return Some(Verb::Step);
    }
    if word == b"tick".as_slice() {
        return Some(Verb::Tick);
    }
    if word == b"run".as_slice() {
        return Some(Verb::Run);
    }
    if word == b"patch".as_slice() {
        return Some(Verb::Patch);
    }
    if word == b"begin".as_slice() {
        return Some(Verb::Begin);
    }
    if word == b"create".as_slice() {
        return Some(Verb::Create);
    }
    if word == b"delete".as_slice() {
        return Some(Verb::Delete);
    }
    if word == b"tables".as_slice() {
        return Some(Verb::Tables);
    }
    if word == b"regs".as_slice() {
        return Some(Verb::Regs);
    }
    if word == b"mem".as_slice() {
        return Some(Verb::Mem);
    }
    None
}

/// The verb that may stand behind `begin`.
pub fn begun_of(word: &[u8]) -> Option<Verb>
    ensures { result ≡ begun_of word.now }
{
    if word == b"patch".as_slice() {
        return Some(Verb::Patch);
    }
    None
}

/// A hart of a run with so many.
#[tactic(auto, unfolding(crate::specs::Words::hart_of))]
pub fn hart_of(word: &[u8], harts: u8) -> Option<u8>
    ensures { result ≡ hart_of harts word.now }
{
    if word.is_empty() || word[0] != b'h' {
        return None;
    }
    let (_, digits) = word.split_at(1);
    let number = decimal_of(digits, 255)?;
    if number < u64::from(harts) {
        return Some(number as u8);
    }
    None
}

/// An actor of a run with so many harts.
#[tactic(auto, unfolding(crate::specs::Words::actor_of))]
pub fn actor_of(word: &[u8], harts: u8) -> Option<Actor>
    ensures { result ≡ actor_of harts word.now }
{
    if word == b"k".as_slice() {
        return Some(Actor::Kernel);
    }
    Some(Actor::Hart(hart_of(word, harts)?))
}

/// A number from 1 to the most.
#[tactic(auto, unfolding(crate::specs::Words::count_of))]
pub fn count_of(word: &[u8], most: u64) -> Option<u64>
    ensures { result ≡ count_of most word.now }
{
    let number = decimal_of(word, most)?;
    if number == 0 {
        return None;
    }
    Some(number)
}

/// The number of a generation, from 0 to 1,023.
pub fn generation_of(word: &[u8]) -> Option<u32>
    ensures { result ≡ generation_of word.now }
{
    let number = decimal_of(word, 1023)?;
    Some(number as u32)
}

/// The address of a doubleword below 2 ^ 38.
#[tactic(auto, unfolding(crate::specs::Words::address_of))]
pub fn address_of(word: &[u8]) -> Option<u64>
    ensures { result ≡ address_of word.now }
{
    if word.len() < 2 || word[0] != b'0' || word[1] != b'x' {
        return None;
    }
    let (_, digits) = word.split_at(2);
    let va = any_hex_of(digits, (1 << 38) - 1)?;
    if va % 8 == 0 {
        return Some(va);
    }
    None
}
