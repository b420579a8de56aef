//! The words of a line that is read: each stands behind one space.
ghost use Rattle.std.specs.Prelude.{◌≡◌, ◌≤◌, ◌-◌, ◌^◌, IfSome, option_map, codes};
ghost use Rattle.wf_text.specs.Numbers.{number_of};
ghost use Rattle.wf_journal.specs.Fields.{word_at, field, ended, one, two, three, four, hex64, hex32, decimal64, decimal32, decimal8, wide_hex, right_of, patch_of, actor_of};

use wf_flat::Actor;
use wf_text::{decimal_of, hex_of, last_hex_of, split_word};

const MAX_64: u64 = 0xFFFF_FFFF_FFFF_FFFF;

const MAX_32: u64 = 0xFFFF_FFFF;

/// The next word, and what stands behind it.
#[tactic(auto, unfolding(crate::specs::Fields::word_at))]
pub fn word_at(rest: &[u8]) -> Option<(&[u8], &[u8])>
    ensures { option_map (λ x. (x.0.now, x.1.now)) result ≡ word_at rest.now }
{
    if rest.is_empty() || rest[0] != b' ' {
        return None;
    }
    let (_, behind) = rest.split_at(1);
    Some(split_word(behind))
}

/// A value where nothing stands behind it.
pub fn ended<T: Copy>(rest: &[u8], value: T) -> Option<T>
    ensures { result ≡ ended rest.now value }
{
    if rest.is_empty() {
        return Some(value);
    }
    None
}

// The next number in hexadecimal, and what stands behind it.
#[tactic(auto, unfolding(crate::specs::Fields::field))]
fn next_hex(rest: &[u8], most: u64) -> Option<(u64, &[u8])>
    ensures value { option_map (λ x. (x.0, x.1.now)) result ≡ field (number_of 16 most) rest.now }
    ensures few { IfSome result (λ x. x.0 ≤ most) }
{
    let (word, behind) = word_at(rest)?;
    Some((hex_of(word, most)?, behind))
}

// The next number in decimal, and what stands behind it.
#[tactic(auto, unfolding(crate::specs::Fields::field))]
fn next_decimal(rest: &[u8], most: u64) -> Option<(u64, &[u8])>
    ensures value { option_map (λ x. (x.0, x.1.now)) result ≡ field (number_of 10 most) rest.now }
    ensures few { IfSome result (λ x. x.0 ≤ most) }
{
    let (word, behind) = word_at(rest)?;
    Some((decimal_of(word, most)?, behind))
}

/// One number in hexadecimal.
#[tactic(auto, unfolding(crate::specs::Fields::one))]
pub fn one_hex64(rest: &[u8]) -> Option<u64>
    ensures { result ≡ one hex64 rest.now }
{
    let (n, rest) = next_hex(rest, MAX_64)?;
    ended(rest, n)
}

/// One number of 32 bits in hexadecimal.
#[tactic(auto, unfolding(crate::specs::Fields::one))]
pub fn one_hex32(rest: &[u8]) -> Option<u32>
    ensures { result ≡ one hex32 rest.now }
{
    let (n, rest) = next_hex(rest, MAX_32)?;
    ended(rest, n as u32)
}

/// One number in decimal.
#[tactic(auto, unfolding(crate::specs::Fields::one))]
pub fn one_decimal64(rest: &[u8]) -> Option<u64>
    ensures { result ≡ one decimal64 rest.now }
{
    let (n, rest) = next_decimal(rest, MAX_64)?;
    ended(rest, n)
}

/// One number of 32 bits in decimal.
#[tactic(auto, unfolding(crate::specs::Fields::one))]
pub fn one_decimal32(rest: &[u8]) -> Option<u32>
    ensures { result ≡ one decimal32 rest.now }
{
    let (n, rest) = next_decimal(rest, MAX_32)?;
    ended(rest, n as u32)
}

/// One number of 8 bits in decimal.
#[tactic(auto, unfolding(crate::specs::Fields::one))]
pub fn one_decimal8(rest: &[u8]) -> Option<u8>
    ensures { result ≡ one decimal8 rest.now }
{
    let (n, rest) = next_decimal(rest, 255)?;
    ended(rest, n as u8)
}

// A number of so many hexadecimal digits.
#[tactic(auto, unfolding(crate::specs::Fields::wide_hex))]
fn wide_hex(word: &[u8], width: usize, most: u64) -> Option<u64>
    ensures value { result ≡ wide_hex width most word.now }
    ensures few { IfSome result (λ n. n ≤ most) }
{
    if word.len() != width {
        return None;
    }
    last_hex_of(word, most)
}

/// A pc and a word of eight digits.
#[tactic(auto, unfolding(crate::specs::Fields::two, crate::specs::Fields::field))]
pub fn pc_and_word(rest: &[u8]) -> Option<(u64, u32)>
    ensures { result ≡ two hex64 (wide_hex 8 (2 ^ 32 - 1)) rest.now }
{
    let (pc, rest) = next_hex(rest, MAX_64)?;
    let (word, rest) = word_at(rest)?;
    let word = wide_hex(word, 8, MAX_32)?;
    ended(rest, (pc, word as u32))
}

/// One byte of two digits.
#[tactic(auto, unfolding(crate::specs::Fields::one, crate::specs::Fields::field))]
pub fn one_byte(rest: &[u8]) -> Option<u8>
    ensures { result ≡ one (wide_hex 2 255) rest.now }
{
    let (word, rest) = word_at(rest)?;
    let byte = wide_hex(word, 2, 255)?;
    ended(rest, byte as u8)
}

/// An address, a width and a value.
#[tactic(auto, unfolding(crate::specs::Fields::three))]
pub fn access(rest: &[u8]) -> Option<(u64, u8, u64)>
    ensures { result ≡ three hex64 decimal8 hex64 rest.now }
{
    let (va, rest) = next_hex(rest, MAX_64)?;
    let (width, rest) = next_decimal(rest, 255)?;
    let (value, rest) = next_hex(rest, MAX_64)?;
    ended(rest, (va, width as u8, value))
}

/// An address, a width and two values.
#[tactic(auto, unfolding(crate::specs::Fields::four))]
pub fn exchange(rest: &[u8]) -> Option<(u64, u8, u64, u64)>
    ensures { result ≡ four hex64 decimal8 hex64 hex64 rest.now }
{
    let (va, rest) = next_hex(rest, MAX_64)?;
    let (width, rest) = next_decimal(rest, 255)?;
    let (old, rest) = next_hex(rest, MAX_64)?;
    let (new, rest) = next_hex(rest, MAX_64)?;
    ended(rest, (va, width as u8, old, new))
}

/// A generation and a page.
#[tactic(auto, unfolding(crate::specs::Fields::two))]
pub fn generation_and_page(rest: &[u8]) -> Option<(u32, u32)>
    ensures { result ≡ two decimal32 hex32 rest.now }
{
    let (generation, rest) = next_decimal(rest, MAX_32)?;
    let (page, rest) = next_hex(rest, MAX_32)?;
    ended(rest, (generation as u32, page as u32))
}

/// A cause and a value.
#[tactic(auto, unfolding(crate::specs::Fields::two))]
pub fn cause_and_value(rest: &[u8]) -> Option<(u8, u64)>
    ensures { result ≡ two decimal8 hex64 rest.now }
{
    let (cause, rest) = next_decimal(rest, 255)?;
    let (value, rest) = next_hex(rest, MAX_64)?;
    ended(rest, (cause as u8, value))
}

/// A page and a number of pages.
#[tactic(auto, unfolding(crate::specs::Fields::two))]
pub fn page_and_count(rest: &[u8]) -> Option<(u32, u64)>
    ensures { result ≡ two hex32 decimal64 rest.now }
{
    let (page, rest) = next_hex(rest, MAX_32)?;
    let (n, rest) = next_decimal(rest, MAX_64)?;
    ended(rest, (page as u32, n))
}

/// Two numbers in decimal.
#[tactic(auto, unfolding(crate::specs::Fields::two))]
pub fn two_decimals(rest: &[u8]) -> Option<(u64, u64)>
    ensures { result ≡ two decimal64 decimal64 rest.now }
{
    let (m, rest) = next_decimal(rest, MAX_64)?;
    let (n, rest) = next_decimal(rest, MAX_64)?;
    ended(rest, (m, n))
}

/// The page at the front, and what stands behind it.
pub fn next_page(rest: &[u8]) -> Option<(u32, &[u8])>
    ensures { option_map (λ x. (x.0, x.1.now)) result ≡ field hex32 rest.now }
{
    let (page, rest) = next_hex(rest, MAX_32)?;
    Some((page as u32, rest))
}

// A right: `rw`, or `r` alone.
#[tactic(auto, unfolding(crate::specs::Fields::right_of))]
fn right_of(word: &[u8]) -> Option<bool>
    ensures { result ≡ right_of word.now }
{
    if word == b"rw".as_slice() {
        return Some(true);
    }
    if word == b"r".as_slice() {
        return Some(false);
    }
    None
}

// A patch: `p` and its number, or the text that stands for none.
#[tactic(auto, unfolding(crate::specs::Fields::patch_of))]
fn patch_of(word: &[u8], none: &[u8]) -> Option<Option<u32>>
    ensures { result ≡ patch_of none.now word.now }
{
    if word == none {
        return Some(None);
    }
    if word.is_empty() || word[0] != b'p' {
        return None;
    }
    let (_, digits) = word.split_at(1);
    let number = decimal_of(digits, MAX_32)?;
    Some(Some(number as u32))
}

/// An actor: `k`, or `h` and a number below 256.
#[tactic(auto, unfolding(crate::specs::Fields::actor_of))]
pub fn actor_of(word: &[u8]) -> Option<Actor>
    ensures { result ≡ actor_of word.now }
{
    if word == b"k".as_slice() {
        return Some(Actor::Kernel);
    }
    if word.is_empty() || word[0] != b'h' {
        return None;
    }
    let (_, digits) = word.split_at(1);
    let number = decimal_of(digits, 255)?;
    Some(Actor::Hart(number as u8))
}

/// One actor.
#[tactic(auto, unfolding(crate::specs::Fields::one, crate::specs::Fields::field))]
pub fn one_actor(rest: &[u8]) -> Option<Actor>
    ensures { result ≡ one actor_of rest.now }
{
    let (word, rest) = word_at(rest)?;
    let actor = actor_of(word)?;
    ended(rest, actor)
}

/// A page, a number of pages, their right, and the patch that they are of, `z` for none.
#[tactic(auto, unfolding(crate::specs::Fields::four, crate::specs::Fields::field))]
pub fn mapping(rest: &[u8]) -> Option<(u32, u64, bool, Option<u32>)>
    ensures { result ≡ four hex32 decimal64 right_of (patch_of (codes "z")) rest.now }
{
    let (page, rest) = next_hex(rest, MAX_32)?;
    let (n, rest) = next_decimal(rest, MAX_64)?;
    let (word, rest) = word_at(rest)?;
    let write = right_of(word)?;
    let (word, rest) = word_at(rest)?;
    let patch = patch_of(word, b"z")?;
    ended(rest, (page as u32, n, write, patch))
}

/// A generation, its parent, and its patch, `-` for none.
#[tactic(auto, unfolding(crate::specs::Fields::three, crate::specs::Fields::field))]
pub fn birth(rest: &[u8]) -> Option<(u32, u32, Option<u32>)>
    ensures { result ≡ three decimal32 decimal32 (patch_of (codes "-")) rest.now }
{
    let (generation, rest) = next_decimal(rest, MAX_32)?;
    let (parent, rest) = next_decimal(rest, MAX_32)?;
    let (word, rest) = word_at(rest)?;
    let patch = patch_of(word, b"-")?;
    ended(rest, (generation as u32, parent as u32, patch))
}
